//! Words of sets.

ghost use Rattle.std.specs.Prelude.{◌≡◌, ◌++◌, ◌∷◌, [], if◌then◌else◌, List, IfOk, OnOk, OnErr};
ghost use Rattle.hy_base.specs.Pieces.{GaveFront};
ghost use Rattle.hy_text.specs.Joined.{piece};
ghost use Rattle.hy_text.specs.Sets.{printed_set};
ghost use Rattle.hy_text.specs.Words.{printed_word};
ghost use Rattle.hy_text.specs.Found.{IsWordFound, IsWordHere};
ghost use Rattle.hy_bits.specs.Letter.{Letter};

use crate::bytes::{past_blanks, past_byte};
use crate::sets::{push_set, read_set};
use hy_base::{M, Text};
use hy_bits::{LetterMask, Letters};
use hy_formula::NameTable;

/// A word that has been read: the number of its sets, and what stands behind it and blanks.
#[derive(Clone, Copy)]
pub struct WordRead<'a> {
    pub sets: usize,
    pub rest: &'a [u8],
}

/// The word at the front and what stands behind it, in time linear in the word. Its letters, at most
/// `most` of them, are added to `letters`; names that the table lacks are passed over. `None` where
/// no word stands there: a set, and each semicolon behind a set has a set behind it. Where there is
/// no word, and where memory runs out, `letters` is as before.
pub fn read_word<'a>(
    text: &'a [u8],
    names: &NameTable,
    most: usize,
    letters: &mut Letters,
) -> M<Option<WordRead<'a>>>
    ensures found { IfOk result
        (λ found. IsWordFound names.now most letters.old letters.new text.now found) }
    ensures refused { OnErr result (letters.new ≡ letters.old) }
{
    let before = letters.len();
    let found = read_sets(text, names, most, letters);
    match found {
        Ok(Some(_)) => {}
        Ok(None) | Err(_) => letters.truncate(before),
    }
    found
}

/// The number of the sets of the word at the front, and what stands behind it, as `read_word` finds
/// them, with no letter kept. In time linear in the word, and less where the table has no name, which
/// changes nothing.
pub fn skip_word<'a>(text: &'a [u8], names: &NameTable) -> Option<WordRead<'a>>
    ensures { IsWordHere names.now 0 [] [] text.now result }
{
    let mut here = text;
    let mut sets = 0;
    loop {
        let Some(set) = read_set(here, names) else {
            return None;
        };
        sets += 1;
        let rest = past_blanks(set.rest);
        let Some(next) = past_byte(rest, b';') else {
            return Some(WordRead { sets, rest });
        };
        here = past_blanks(next);
    }
}

/// As `read_word`, but letters that were read are left where there is no word.
fn read_sets<'a>(
    text: &'a [u8],
    names: &NameTable,
    most: usize,
    letters: &mut Letters,
) -> M<Option<WordRead<'a>>>
    ensures found { IfOk result
        (λ found. IsWordHere names.now most letters.old letters.new text.now found) }
    ensures kept { (more : List Letter) × (letters.new ≡ letters.old ++ more) }
{
    let mut here = text;
    let mut sets = 0;
    loop {
        let Some(set) = read_set(here, names) else {
            return Ok(None);
        };
        keep_letter(letters, set.letter, sets < most)?;
        sets += 1;
        let rest = past_blanks(set.rest);
        let Some(next) = past_byte(rest, b';') else {
            return Ok(Some(WordRead { sets, rest }));
        };
        here = past_blanks(next);
    }
}

/// Adds a letter, where it is wanted.
fn keep_letter(letters: &mut Letters, letter: LetterMask, is_wanted: bool) -> M<()>
    ensures added { OnOk result (letters.new ≡ letters.old ++ (if is_wanted then letter ∷ [] else [])) }
    ensures refused { OnErr result (letters.new ≡ letters.old) }
{
    if is_wanted {
        letters.push(letter)
    } else {
        Ok(())
    }
}

/// Adds a word to a text, each set by `push_set`, and semicolons between them. Refused for memory it
/// adds a front of that, and not all.
pub fn push_word(out: &mut Text, letters: &[LetterMask], names: &NameTable) -> M<()>
    ensures added { OnOk result (out.new ≡ out.old ++ printed_word names.now letters.now) }
    ensures refused { OnErr result
        (GaveFront out.old out.new (printed_word names.now letters.now)) }
{
    for (i, letter) in letters.iter().enumerate() {
        push_next(out, i == 0, letter, names)?;
    }
    Ok(())
}

/// Adds a set, with a semicolon before it unless it is the first one.
fn push_next(out: &mut Text, is_first: bool, letter: &LetterMask, names: &NameTable) -> M<()>
    ensures added { OnOk result
        (out.new ≡ out.old ++ piece is_first 59 (printed_set names.now letter.now)) }
    ensures refused { OnErr result
        (GaveFront out.old out.new (piece is_first 59 (printed_set names.now letter.now))) }
{
    if !is_first {
        out.push(b';')?;
    }
    push_set(out, letter, names)
}
