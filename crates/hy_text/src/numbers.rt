//! Numbers of at most ten decimal digits.

ghost use Rattle.std.specs.Prelude.{◌≡◌, ◌↔◌, ℕ, ◌^◌, ◌<◌, ◌≤◌, length, IfSome, IfNone, IsTrue, MatchOption, slice_index};
ghost use Rattle.std.specs.Str.Parse.{AllDigits, digits_value};
ghost use Rattle.hy_text.specs.Numbers.{SaysNumber, number_of};

/// The number that the word spells in decimal digits, at most ten of them and the first no needless
/// zero. `None` exactly where it spells none.
#[inline(always)]
pub fn number(word: &[u8]) -> Option<u64>
    ensures said { result ≡ number_of word.now }
    ensures says { MatchOption result ((n : ℕ) → ¬ SaysNumber word.now n)
        (λ n. SaysNumber word.now n) }
    ensures short { IfSome result (λ n. n < 10 ^ 10) }
{
    if word.is_empty() || word.len() > 10 || leads_with_zero(word) {
        return None;
    }
    digits(word)
}

/// Whether the word has a needless zero before its number.
fn leads_with_zero(word: &[u8]) -> bool
    ensures { IsTrue result ↔ ((1 < length word.now) × (slice_index word.now 0 ≡ 48)) }
{
    word.len() > 1 && word[0] == b'0'
}

/// The number of a word of at most ten digits.
fn digits(word: &[u8]) -> Option<u64>
    requires { length word.now ≤ 10 }
    ensures none { IfNone result (¬ AllDigits 10 word.now) }
    ensures some { IfSome result (λ n. AllDigits 10 word.now × (n ≡ digits_value 10 word.now)) }
{
    let mut n = 0;
    for b in word {
        if *b < b'0' || b'9' < *b {
            return None;
        }
        n = n * 10 + u64::from(*b - b'0');
    }
    Some(n)
}
