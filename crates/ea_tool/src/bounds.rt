//! Bounds on lists of lassos, as words give them.

ghost use Rattle.std.specs.Prelude.{◌≡◌, ◌≢◌, ◌+◌, ◌<◌, ◌≤◌, ℕ, IfSome, IfNone};
ghost use Rattle.bound_search.specs.Bounds.{IsBound};
ghost use Rattle.ea_tool.specs.Words.{bound_text};

use bound_search::Bound;

/// The bound that a text is, if it is one: the most lassos, from 1 to 4, letters of a stem, from 0
/// to 8, and letters of a cycle, from 1 to 4, joined by commas.
pub fn bound_in(text: &str) -> Option<Bound>
    ensures some { IfSome result (λ bound. (text.now ≡ bound_text bound) × IsBound bound) }
    ensures none { IfNone result ((bound : Bound) → IsBound bound → text.now ≢ bound_text bound) }
{
    let &[traces, first, stem, second, cycle] = text.as_bytes() else {
        return None;
    };
    if first != b',' || second != b',' {
        return None;
    }
    let traces = digit_in(traces, 1, 4)?;
    let stem = digit_in(stem, 0, 8)?;
    let cycle = digit_in(cycle, 1, 4)?;
    Some(Bound {
        traces,
        stem,
        cycle,
    })
}

/// The number that a digit is, if it is one from `least` to `most`.
fn digit_in(digit: u8, least: u8, most: u8) -> Option<u8>
    requires { most < 10 }
    ensures some { IfSome result (λ n. (digit ≡ 48 + n) × (least ≤ n) × (n ≤ most)) }
    ensures none { IfNone result ((n : ℕ) → least ≤ n → n ≤ most → digit ≢ 48 + n) }
{
    if digit < b'0' {
        return None;
    }
    let n = digit - b'0';
    if n < least || most < n {
        return None;
    }
    Some(n)
}
