//! Names, plain and in quotes.

ghost use Rattle.std.specs.Prelude.{◌≡◌, ◌<◌, ◌++◌, length, IfSome, OnOk, OnErr};
ghost use Rattle.std.specs.Option.{option_map};
ghost use Rattle.hy_base.specs.Pieces.{GaveFront};
ghost use Rattle.hy_text.specs.Names.{plain_name_at, quoted_name_at, name_at, spelled};
ghost use Rattle.hy_text.specs.Found.{plain_pair};

use crate::bytes::{begins_with_letter, is_plain};
use crate::class::Class;
use hy_base::{M, Text};

/// The name at the front, without its quotes, and what stands behind it, in time linear in the
/// name.
#[inline(always)]
pub fn read_name(text: &[u8]) -> Option<(&[u8], &[u8])>
    ensures found { option_map plain_pair result ≡ name_at text.now }
    ensures within { IfSome result (λ p. length p.1.now < length text.now) }
{
    if text.starts_with(b"\"") {
        read_quoted_name(text)
    } else {
        read_plain_name(text)
    }
}

/// The name at the front that is not quoted, and what stands behind it.
#[inline(always)]
fn read_plain_name(text: &[u8]) -> Option<(&[u8], &[u8])>
    ensures found { option_map plain_pair result ≡ plain_name_at text.now }
    ensures within { IfSome result (λ p. length p.1.now < length text.now) }
{
    let (name, behind) = Class::WordByte.split(text);
    if !begins_with_letter(name) {
        return None;
    }
    Some((name, behind))
}

/// The name between quotes at the front of a text that begins with a quote, and what stands behind it.
fn read_quoted_name(text: &[u8]) -> Option<(&[u8], &[u8])>
    requires { 0 < length text.now }
    ensures found { option_map plain_pair result ≡ quoted_name_at text.now }
    ensures within { IfSome result (λ p. length p.1.now < length text.now) }
{
    let (_, inner) = text.split_at(1);
    let (name, behind) = Class::Quotable.split(inner);
    if name.is_empty() || !behind.starts_with(b"\"") {
        return None;
    }
    let (_, rest) = behind.split_at(1);
    Some((name, rest))
}

/// Adds `name` to a text, with quotes exactly where it is not a letter followed by letters, digits
/// and underscores. In time linear in the name. Refused for memory it adds a front of that, and not
/// all.
pub fn push_name(out: &mut Text, name: &[u8]) -> M<()>
    ensures added { OnOk result (out.new ≡ out.old ++ spelled name.now) }
    ensures refused { OnErr result (GaveFront out.old out.new (spelled name.now)) }
{
    if is_plain(name) {
        return out.extend(name);
    }
    out.push(b'"')?;
    out.extend(name)?;
    out.push(b'"')
}
