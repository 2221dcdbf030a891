//! Literals and numbers from 1 on, as numbers of 32 bits. A longer one is read as 0, which is neither.

ghost use Rattle.std.specs.Prelude.{◌≡◌, ◌<◌, ◌^◌, ℕ, MatchOption, IfSome, pos, neg_ℤ};
ghost use Rattle.cert_text.specs.Numbers.{SaysCount};
ghost use Rattle.cert_text.specs.Shortened.{IsCountRead, IsLiteralRead, short_literal, short_number};

use hy_text::{number, past_byte};

/// The number from 1 on that the word says.
fn count(word: &[u8]) -> Option<u64>
    ensures said { MatchOption result ((n : ℕ) → ¬ SaysCount word.now n)
        (λ n. SaysCount word.now n) }
    ensures short { IfSome result (λ n. n < 10 ^ 10) }
{
    match number(word) {
        Some(n) if n != 0 => Some(n),
        _ => None,
    }
}

/// The number from 1 on that the word says, and 0 for one of more than 32 bits.
pub fn read_count(word: &[u8]) -> Option<u32>
    ensures { IsCountRead word.now result }
{
    match count(word) {
        Some(n) => Some(short(n)),
        None => None,
    }
}

/// The literal that the word says, and 0 for one of more than 32 bits.
pub fn read_literal(word: &[u8]) -> Option<i32>
    ensures { IsLiteralRead word.now result }
{
    match past_byte(word, b'-') {
        Some(variable) => match count(variable) {
            Some(n) => Some(opposite(n)),
            None => None,
        },
        None => match count(word) {
            Some(n) => Some(positive(n)),
            None => None,
        },
    }
}

/// The number, and 0 for one of more than 32 bits.
fn short(n: u64) -> u32
    ensures { result ≡ short_number n }
{
    if n <= 4_294_967_295 { n as u32 } else { 0 }
}

/// The literal that makes the variable true, and 0 for one of more than 32 bits.
fn positive(variable: u64) -> i32
    ensures { result ≡ short_literal (pos variable) }
{
    if variable <= 2_147_483_647 {
        variable as i32
    } else {
        0
    }
}

/// The literal that makes the variable false, and 0 for one of more than 32 bits.
fn opposite(variable: u64) -> i32
    ensures { result ≡ short_literal (neg_ℤ (pos variable)) }
{
    if variable <= 2_147_483_647 {
        -(variable as i32)
    } else {
        0
    }
}
