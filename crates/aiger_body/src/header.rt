//! The first line of a circuit text.

ghost use Rattle.std.specs.Prelude.{◌≡◌, ◌≤◌, length, IfOk, IfSome};
ghost use Rattle.aiger_body.specs.Files.{form_of, header_of, header_with, is_header};
ghost use Rattle.aiger_body.specs.Answers.{IsShort, IsHeaderAnswer, IsJudged};

use crate::content::number;
use crate::error::AigerError;
use crate::text::{is_whole, line_at, read_numbers, text_of};
use aig_kind::AigKind;
use hy_base::{Kind, Limit, List, M};
use std::alloc::Global;

/// The greatest variable that a text may have.
pub const VARIABLES_LIMIT: u64 = 1_048_576;

/// The counts of a circuit text: its greatest variable, and how many there are of each kind.
#[derive(Clone, Copy, Debug)]
pub struct Header {
    /// The ands stand in the binary form.
    pub binary: bool,
    pub top: u64,
    pub inputs: u64,
    pub latches: u64,
    pub outputs: u64,
    pub ands: u64,
    pub bads: u64,
    pub constraints: u64,
    pub justices: u64,
    pub fairs: u64,
}

impl Header {
    /// Whether the greatest variable is large enough, or in the binary form the sum of the counts.
    fn is_large_enough(&self) -> bool
        requires { IsShort self.now }
        ensures { result ≡ is_header self.now }
    {
        let least = self.inputs + self.latches + self.ands;
        if self.binary {
            self.top == least
        } else {
            least <= self.top
        }
    }
}

/// The header of a text, and where the line behind it begins. In time linear in the first line.
pub fn read_header(alloc: Global, bytes: &[u8]) -> Result<(Header, usize), AigerError>
    requires { length bytes.now ≤ 67108864 }
    ensures { IsHeaderAnswer bytes.now result }
{
    let line = line_at(bytes, 0);
    if !is_whole(line) {
        let byte = bytes.len() as u32;
        return Err(AigerError::Bad {
            kind: AigKind::Truncated,
            byte,
        });
    }
    let found = header_of(alloc, text_of(line))?;
    let header = right_header(found)?;
    Ok((header, line.len()))
}

/// The header, where it is right and within the limit.
fn right_header(found: Option<Header>) -> Result<Header, AigerError>
    requires { IfSome found IsShort }
    ensures { IsJudged found result }
{
    let fault = AigerError::Bad {
        kind: AigKind::Header,
        byte: 0,
    };
    let Some(header) = found else {
        return Err(fault);
    };
    if !header.is_large_enough() {
        return Err(fault);
    }
    if header.top > VARIABLES_LIMIT {
        return Err(AigerError::Limit(Limit {
            kind: Kind::Variables,
            limit: VARIABLES_LIMIT,
        }));
    }
    Ok(header)
}

/// The header that the line says.
fn header_of(alloc: Global, line: &[u8]) -> M<Option<Header>>
    ensures said { IfOk result (λ found. found ≡ header_of line.now) }
    ensures short { IfOk result (λ found. IfSome found IsShort) }
{
    let (word, numbers) = line.split_at(line.len().min(4));
    let Some(binary) = form_of(word) else {
        return Ok(None);
    };
    let mut row = List::new(alloc);
    read_numbers(numbers, &mut row)?;
    Ok(header_with(binary, row.as_slice()))
}

/// Whether a text that begins so is in the binary form.
fn form_of(word: &[u8]) -> Option<bool>
    ensures { result ≡ form_of word.now }
{
    if word == b"aag ".as_slice() {
        Some(false)
    } else if word == b"aig ".as_slice() {
        Some(true)
    } else {
        None
    }
}

/// The header of five to nine numbers.
fn header_with(binary: bool, row: &[u64]) -> Option<Header>
    ensures { result ≡ header_with binary row.now }
{
    match row {
        [top, inputs, latches, outputs, ands, more @ ..] if more.len() <= 4 => Some(Header {
            binary,
            top: *top,
            inputs: *inputs,
            latches: *latches,
            outputs: *outputs,
            ands: *ands,
            bads: number(more, 0),
            constraints: number(more, 1),
            justices: number(more, 2),
            fairs: number(more, 3),
        }),
        _ => None,
    }
}
