//! Sets of names in braces, each set a letter.

ghost use Rattle.std.specs.Prelude.{◌≡◌, ◌<◌, ◌++◌, length, IfSome, OnOk, OnErr};
ghost use Rattle.hy_base.specs.Pieces.{GaveFront};
ghost use Rattle.hy_text.specs.Joined.{piece};
ghost use Rattle.hy_text.specs.Names.{spelled};
ghost use Rattle.hy_text.specs.Sets.{with_member, printed_set};
ghost use Rattle.hy_text.specs.Found.{IsSetFound, IsMembersFound};

use crate::bytes::{past_blanks, past_byte};
use crate::names::{push_name, read_name};
use hy_base::{M, Text};
use hy_bits::LetterMask;
use hy_formula::NameTable;

/// A set that has been read, and what stands behind it.
#[derive(Clone, Copy)]
pub struct SetRead<'a> {
    pub letter: LetterMask,
    pub rest: &'a [u8],
}

/// The set at the front and what stands behind it, in time linear in the set. Names that the table
/// lacks are passed over. `None` where no set stands there.
#[inline(always)]
pub fn read_set<'a>(text: &'a [u8], names: &NameTable) -> Option<SetRead<'a>>
    ensures found { IsSetFound names.now text.now result }
    ensures within { IfSome result (λ p. length p.rest.now < length text.now) }
{
    let Some(inner) = past_byte(text, b'{') else {
        return None;
    };
    let members = past_blanks(inner);
    if let Some(rest) = past_byte(members, b'}') {
        let letter = LetterMask::empty();
        return Some(SetRead { letter, rest });
    }
    read_members(members, names)
}

/// The names at the front that end with a closing brace, as `read_set`.
#[inline(always)]
fn read_members<'a>(text: &'a [u8], names: &NameTable) -> Option<SetRead<'a>>
    ensures found { IsMembersFound names.now text.now result }
    ensures within { IfSome result (λ p. length p.rest.now < length text.now) }
{
    let mut letter = LetterMask::empty();
    let mut here = text;
    loop {
        let Some((name, behind)) = read_name(here) else {
            return None;
        };
        letter = with_member(letter, name, names);
        let tail = past_blanks(behind);
        if let Some(rest) = past_byte(tail, b'}') {
            return Some(SetRead { letter, rest });
        }
        let Some(next) = past_byte(tail, b',') else {
            return None;
        };
        here = past_blanks(next);
    }
}

/// The letter with the number of a name, where the table has it.
fn with_member(letter: LetterMask, name: &[u8], names: &NameTable) -> LetterMask
    ensures { result ≡ with_member names.now letter name.now }
{
    if names.len() == 0 {
        return letter;
    }
    match names.find(name) {
        Some(number) => letter.with(number as usize),
        None => letter,
    }
}

/// Adds a set to a text: the names of the table that are in the letter, by their numbers, with no
/// blanks. In time linear in the names of the table and of the letter. Refused for memory it adds a
/// front of that, and not all.
pub fn push_set(out: &mut Text, letter: &LetterMask, names: &NameTable) -> M<()>
    ensures added { OnOk result (out.new ≡ out.old ++ printed_set names.now letter.now) }
    ensures refused { OnErr result (GaveFront out.old out.new (printed_set names.now letter.now)) }
{
    out.push(b'{')?;
    let mut is_first = true;
    for i in 0..names.len() {
        if letter.has(i) {
            push_member(out, is_first, names.at(i as u8))?;
            is_first = false;
        }
    }
    out.push(b'}')
}

/// Adds a name, with a comma before it unless it is the first one.
fn push_member(out: &mut Text, is_first: bool, name: &[u8]) -> M<()>
    ensures added { OnOk result (out.new ≡ out.old ++ piece is_first 44 (spelled name.now)) }
    ensures refused { OnErr result
        (GaveFront out.old out.new (piece is_first 44 (spelled name.now))) }
{
    if !is_first {
        out.push(b',')?;
    }
    push_name(out, name)
}
