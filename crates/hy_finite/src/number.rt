//! Numbers of sessions.

ghost use Rattle.std.specs.Prelude.{◌≡◌, ◌<◌, ◌≤◌, IsTrue, length, IfSome};
ghost use Rattle.std.specs.List.{list_all};
ghost use Rattle.std.specs.Option.{option_map};
ghost use Rattle.hy_text.specs.Bytes.{is_digit};
ghost use Rattle.hy_finite.specs.EventLines.{is_number, decimal, number_at, session_at};
ghost use Rattle.hy_finite.specs.LineParts.{plain_number};

use hy_text::{Class, past_blanks, past_byte};

/// The number of the session at the front, `@` and the number, and what stands behind it and blanks.
/// In time linear in the digits and blanks.
pub fn read_session(text: &[u8]) -> Option<(u32, &[u8])>
    ensures { option_map plain_number result ≡ session_at text.now }
{
    let inner = past_byte(text, b'@')?;
    let (session, rest) = read_number(inner)?;
    Some((session, past_blanks(rest)))
}

/// The number at the front, and what stands behind it. In time linear in the digits.
pub fn read_number(text: &[u8]) -> Option<(u32, &[u8])>
    ensures { option_map plain_number result ≡ number_at text.now }
{
    let (digits, rest) = Class::Digit.split(text);
    if !is_number(digits) {
        return None;
    }
    Some((decimal(digits), rest))
}

/// Whether the digits are a number: 1 to 9 of them, and the first is 0 only where it is the only one.
fn is_number(digits: &[u8]) -> bool
    ensures { result ≡ is_number digits.now }
{
    let len = digits.len();
    1 <= len && len <= 9 && (len == 1 || !digits.starts_with(b"0"))
}

/// The number that the digits are.
fn decimal(digits: &[u8]) -> u32
    requires few { length digits.now ≤ 9 }
    requires digits { IsTrue (list_all is_digit digits.now) }
    ensures { result ≡ decimal digits.now }
{
    let mut n = 0;
    for digit in digits {
        n = n * 10 + (*digit - b'0') as u32;
    }
    n
}
