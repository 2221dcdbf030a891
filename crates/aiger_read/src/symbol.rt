//! Symbols: the lines that give names, and the line that begins the comment.

ghost use Rattle.std.specs.Prelude.{◌≡◌, ◌+◌, ◌*◌, ◌^◌, ◌≤◌, ◌<◌, Some, sum, take};
ghost use Rattle.std.specs.List.{before_first, after_first};
ghost use Rattle.aiger_body.specs.Answers.{Fits};
ghost use Rattle.aiger_body.specs.Texts.{is_space};
ghost use Rattle.aiger_body.specs.Symbols.{symbol_of, begins_comment, is_name, is_symbol, kind_number, count_of, symbol_counts};
ghost use Rattle.aiger_read.specs.Symbols.{said, start_of};

use aiger_body::{Header, is_whole, text_of, word_len};
use hy_text::number;

/// What a symbol line says.
#[derive(Clone, Copy)]
pub struct Symbol<'a> {
    /// The letter of the kind.
    pub kind: u8,
    pub number: u64,
    pub name: &'a [u8],
}

/// The letters of inputs, latches, outputs, bad literals, constraints, justice properties and
/// fairness literals.
const LETTERS: &[u8] = b"ilobcjf";

/// Whether the line begins the comment. The last line of a file may lack its line feed.
pub fn begins_comment(line: &[u8]) -> bool
    ensures { result ≡ begins_comment line.now }
{
    (is_whole(line) && text_of(line) == b"c".as_slice()) || line == b"c".as_slice()
}

/// The symbol of a text: a letter, a number, a space and the name.
pub fn symbol_of(text: &[u8]) -> Option<Symbol<'_>>
    ensures { said result ≡ symbol_of text.now }
{
    let [kind, rest @ ..] = text else {
        return None;
    };
    let (word, name) = cut_space(rest);
    let Some(number) = number(word) else {
        return None;
    };
    Some(Symbol {
        kind: *kind,
        number,
        name,
    })
}

/// What stands before the first space, and what stands behind it.
fn cut_space(text: &[u8]) -> (&[u8], &[u8])
    ensures before { result.0.now ≡ before_first is_space text.now }
    ensures after { result.1.now ≡ after_first is_space text.now }
{
    let (word, rest) = text.split_at(word_len(text));
    let (_, name) = rest.split_at(rest.len().min(1));
    (word, name)
}

/// How many kinds of symbols there are.
pub const KINDS: usize = 7;

/// How many there are of each kind, in the order of their letters.
fn counts(header: &Header) -> [u64; 7]
    ensures { result ≡ symbol_counts header.now }
{
    [
        header.inputs,
        header.latches,
        header.outputs,
        header.bads,
        header.constraints,
        header.justices,
        header.fairs,
    ]
}

/// The number of the kind with this letter, 7 where there is none.
fn kind_number(letter: u8) -> usize
    ensures number { result ≡ kind_number letter }
    ensures within { result ≤ 7 }
{
    for (i, l) in LETTERS.iter().enumerate() {
        if *l == letter {
            return i;
        }
    }
    KINDS
}

/// How many there are of the kinds before this one.
pub fn start(header: &Header, kind: usize) -> u64
    requires fits { Fits header.now }
    requires kind { kind ≤ 7 }
    ensures sum { result ≡ sum (take kind (symbol_counts header.now)) }
    ensures small { result ≤ 10 ^ 10 * kind }
{
    let counts = counts(header);
    let mut before = 0;
    for i in 0..kind {
        before += counts[i];
    }
    before
}

/// How many there are of the kind with this letter.
fn count(header: &Header, letter: u8) -> u64
    ensures { result ≡ count_of header.now letter }
{
    let kind = kind_number(letter);
    if kind < KINDS {
        counts(header)[kind]
    } else {
        0
    }
}

/// Whether there is what the symbol names, and its name is one.
pub fn is_symbol(header: &Header, symbol: &Symbol<'_>) -> bool
    ensures { result ≡ is_symbol header.now (said (Some symbol.now)) }
{
    symbol.number < count(header, symbol.kind) && is_name(symbol.name)
}

/// Whether it is not empty and does not end in a carriage return.
fn is_name(name: &[u8]) -> bool
    ensures { result ≡ is_name name.now }
{
    !name.is_empty() && name[name.len() - 1] != b'\r'
}

/// The place of what the symbol names among all that can be named.
pub fn place(header: &Header, symbol: &Symbol<'_>) -> u64
    requires fits { Fits header.now }
    requires there { symbol.now.number < count_of header.now symbol.now.kind }
    ensures { result ≡ start_of header.now symbol.now.kind + symbol.now.number }
{
    start(header, kind_number(symbol.kind)) + symbol.number
}
