//! The steps to the normal form of a lasso.

ghost use Rattle.std.specs.Prelude.{◌≡◌, ◌<◌, ◌↔◌, length, IsTrue};
ghost use Rattle.hy_lasso.specs.Rounds.{RepeatsAfter, IsLeastRound, IsSharedEnd};

use hy_bits::LetterMask;

/// The length of the shortest word of which the letters are a repetition. In time linear in the
/// letters times the divisors of their number.
pub fn least_round(letters: &[LetterMask]) -> usize
    requires { 0 < length letters.now }
    ensures { IsLeastRound letters.now result }
{
    for d in 1..letters.len() {
        if letters.len() % d == 0 && repeats_after(letters, d) {
            return d;
        }
    }
    letters.len()
}

/// Whether each letter stands again `d` places later.
fn repeats_after(letters: &[LetterMask], d: usize) -> bool
    ensures { IsTrue result ↔ RepeatsAfter letters.now d }
{
    for i in d..letters.len() {
        if !is_same(letters[i], letters[i - d]) {
            return false;
        }
    }
    true
}

/// How many letters at the end of the stem are those of the cycle gone round backwards.
pub fn shared_end(stem: &[LetterMask], cycle: &[LetterMask]) -> usize
    requires { 0 < length cycle.now }
    ensures { IsSharedEnd stem.now cycle.now result }
{
    for k in 0..stem.len() {
        let last = cycle[cycle.len() - 1 - k % cycle.len()];
        if !is_same(stem[stem.len() - 1 - k], last) {
            return k;
        }
    }
    stem.len()
}

/// Whether the letters are equal.
fn is_same(a: LetterMask, b: LetterMask) -> bool
    ensures { IsTrue result ↔ (a ≡ b) }
{
    a == b
}
