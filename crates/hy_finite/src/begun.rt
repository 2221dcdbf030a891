//! What a line of a trace file is by how it begins.

ghost use Rattle.std.specs.Prelude.{◌≡◌, ◌↔◌, ℕ, List, ◌∷◌, IsTrue, codes};
ghost use Rattle.hy_finite.specs.EventLines.{IsOnly};
ghost use Rattle.hy_finite.specs.LineParts.{IsBegun, IsBegunHere};

use crate::number::read_session;
use hy_text::past_blanks;

/// What a line is by how it begins. The sets in it are still to be read.
#[derive(Clone, Copy)]
pub enum Begun<'a> {
    /// The line is blank or a comment.
    Nothing,
    /// This text is a whole trace, if anything.
    Word(&'a [u8]),
    /// A letter of a session, if this text is a set.
    Letter { session: u32, set: &'a [u8] },
    End { session: u32 },
    Save,
    Back,
}

/// What the line is. `None` where no line begins so. In time linear in its blanks and digits.
#[inline(always)]
pub fn begin(line: &[u8]) -> Option<Begun<'_>>
    ensures { IsBegun line.now result }
{
    let text = past_blanks(line);
    let [first, ..] = text else {
        return Some(Begun::Nothing);
    };
    if *first == b'#' {
        return Some(Begun::Nothing);
    }
    begin_text(*first, text)
}

/// What the text is, which has this first byte.
#[inline(always)]
fn begin_text(first: u8, text: &[u8]) -> Option<Begun<'_>>
    requires { (rest : List ℕ) × (text.now ≡ first ∷ rest) }
    ensures { IsBegunHere text.now result }
{
    if first == b'{' {
        return Some(Begun::Word(text));
    }
    if first == b'@' {
        return begin_session(text);
    }
    if first == b'!' {
        return begin_mark(text);
    }
    None
}

/// A letter or the end of a session.
fn begin_session(text: &[u8]) -> Option<Begun<'_>>
    requires { (rest : List ℕ) × (text.now ≡ 64 ∷ rest) }
    ensures { IsBegunHere text.now result }
{
    let Some((session, rest)) = read_session(text) else {
        return None;
    };
    if is_end(rest) {
        return Some(Begun::End { session });
    }
    Some(Begun::Letter { session, set: rest })
}

/// `!save` or `!back`.
fn begin_mark(text: &[u8]) -> Option<Begun<'_>>
    requires { (rest : List ℕ) × (text.now ≡ 33 ∷ rest) }
    ensures { IsBegunHere text.now result }
{
    if is_save(text) {
        return Some(Begun::Save);
    }
    if is_back(text) {
        return Some(Begun::Back);
    }
    None
}

/// Whether the text is `end` and blanks.
fn is_end(text: &[u8]) -> bool
    ensures { IsTrue result ↔ IsOnly text.now (codes "end") }
{
    match text {
        [b'e', b'n', b'd', rest @ ..] => past_blanks(rest).is_empty(),
        _ => false,
    }
}

/// Whether the text is `!save` and blanks.
fn is_save(text: &[u8]) -> bool
    ensures { IsTrue result ↔ IsOnly text.now (codes "!save") }
{
    match text {
        [b'!', b's', b'a', b'v', b'e', rest @ ..] => past_blanks(rest).is_empty(),
        _ => false,
    }
}

/// Whether the text is `!back` and blanks.
fn is_back(text: &[u8]) -> bool
    ensures { IsTrue result ↔ IsOnly text.now (codes "!back") }
{
    match text {
        [b'!', b'b', b'a', b'c', b'k', rest @ ..] => past_blanks(rest).is_empty(),
        _ => false,
    }
}
