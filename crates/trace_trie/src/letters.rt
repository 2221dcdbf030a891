//! Letters beside one another.

ghost use Rattle.std.specs.Prelude.{◌≡◌, ◌<◌, IfSome, IfNone, Some, None, not};
ghost use Rattle.std.specs.FinSet.{contains};
ghost use Rattle.trace_trie.specs.Numbered.{same_letter};

use hy_bits::LetterMask;

/// Whether both are the same letter.
pub(crate) fn same(a: LetterMask, b: LetterMask) -> bool
    ensures { result ≡ same_letter a b }
{
    a.is_subset(&b) && b.is_subset(&a)
}

/// A name that one of the letters has and the other lacks. `None` where they are the same.
pub(crate) fn differing(a: LetterMask, b: LetterMask) -> Option<usize>
    ensures some { IfSome result (λ name. (name < 64) × (contains b name ≡ not (contains a name))) }
    ensures none { IfNone result (a ≡ b) }
{
    if same(a, b) {
        return None;
    }
    a.names_below();
    b.names_below();
    for name in 0..64 {
        if a.has(name) != b.has(name) {
            return Some(name);
        }
    }
    None
}
