//! A circuit text up to its symbols.

ghost use Rattle.std.specs.Prelude.{◌≡◌, ℕ, ◌+◌, ◌*◌, ◌<◌, ◌≤◌, true, length, map, IfOk};
ghost use Rattle.std.specs.List.{range_with_len};
ghost use Rattle.aiger_body.specs.declared.section.Section.TheVariants.{Gates};
ghost use Rattle.aiger_body.specs.Texts.{place};
ghost use Rattle.aiger_body.specs.Files.{before, content, counts, lines};
ghost use Rattle.aiger_body.specs.Answers.{Fits, IsLargeEnough, IsShort};
ghost use Rattle.aiger_body.specs.Passes.{IsStart, line_content};
ghost use Rattle.aiger_body.specs.Deltas.{IsBehind};
ghost use Rattle.aiger_body.specs.Bodies.{IsOwnAnswer, IsContentAnswer, IsOrderAnswer, IsBodyAnswer, IsContent};

use crate::content::Content;
use crate::deltas::read_gates;
use crate::error::AigerError;
use crate::header::{Header, read_header};
use crate::lines::read_lines;
use crate::text::line_at;
use crate::uses::check_uses;
use aig_kind::AigKind;
use aig_order::{definers, first_cyclic, order};
use hy_base::{List, M, NumList};
use std::alloc::Global;

/// What a text says up to its symbols: its header, its content, and the order of its ands, which
/// are all taken.
#[derive(Drop)]
pub struct Body {
    pub header: Header,
    pub content: Content,
    pub order: List<u32>,
    /// Where the symbols begin.
    pub tail: usize,
}

/// Reads a text up to its symbols; each fault before them is answered. In time linear in the bytes,
/// but for the order of the ands, and for finding the first of those that depend on themselves.
pub fn read_body(alloc: Global, bytes: &[u8]) -> Result<Body, AigerError>
    requires { length bytes.now ≤ 67108864 }
    ensures { IsBodyAnswer bytes.now result }
{
    let (header, at) = read_header(alloc, bytes)?;
    let (content, tail) = read_content(alloc, bytes, &header, at)?;
    let order = all_taken(alloc, bytes, &header, &content)?;
    Ok(Body {
        header,
        content,
        order,
        tail,
    })
}

/// The content of a text whose lines begin at byte `at`, and where its symbols begin.
fn read_content(
    alloc: Global,
    bytes: &[u8],
    header: &Header,
    at: usize,
) -> Result<(Content, usize), AigerError>
    requires fits { Fits header.now }
    requires right { IsLargeEnough header.now }
    requires room { length bytes.now ≤ 67108864 }
    requires start { IsStart bytes.now 0 at }
    ensures { IsContentAnswer header.now bytes.now result }
{
    let lines = read_lines(alloc, bytes, header, at)?;
    check_uses(alloc, bytes, header, at, &lines)?;
    let base = lines.at;
    let (content, tail) = with_own(alloc, bytes, header, lines.content, base)?;
    Ok((content, tail))
}

/// The content of the lines with the inputs and ands that have none in the binary form, where their
/// numbers begin at byte `base`, and where they end.
fn with_own(
    alloc: Global,
    bytes: &[u8],
    header: &Header,
    content: Content,
    base: usize,
) -> Result<(Content, usize), AigerError>
    requires fits { Fits header.now }
    requires room { length bytes.now ≤ 67108864 }
    requires base { IsBehind header.now bytes.now base }
    requires content { content ≡ line_content header.now bytes.now }
    ensures { IsOwnAnswer header.now bytes.now result }
{
    if !header.binary {
        return Ok((content, base));
    }
    let (gates, tail) = read_gates(alloc, bytes, header, base)?;
    let inputs = own_inputs(alloc, header)?;
    let mut whole = content;
    whole.inputs = inputs;
    whole.gates = gates;
    Ok((whole, tail))
}

/// The literals of the inputs of the binary form.
fn own_inputs(alloc: Global, header: &Header) -> M<NumList>
    requires { Fits header.now }
    ensures { IfOk result (λ list. list ≡ map (λ k. 2 * k) (range_with_len 1 header.now.inputs)) }
{
    let mut inputs = List::new(alloc);
    for k in 0..header.inputs {
        inputs.push((2 * (1 + k)) as u32)?;
    }
    Ok(inputs)
}

/// The order of the ands, or the first that depends on itself.
fn all_taken(
    alloc: Global,
    bytes: &[u8],
    header: &Header,
    content: &Content,
) -> Result<List<u32>, AigerError>
    requires fits { Fits header.now }
    requires room { length bytes.now ≤ 67108864 }
    requires content { IsContent header.now bytes.now content.now }
    ensures { IsOrderAnswer header.now bytes.now result }
{
    let gates = content.gates.as_slice();
    let definers = definers(alloc, gates, header.top as u32)?;
    let order = order(alloc, gates, &definers)?;
    if order.len() == gates.len() {
        return Ok(order);
    }
    let Some(k) = first_cyclic(alloc, gates, &definers)? else {
        return Ok(order);
    };
    let line = header.lines_before_gates(content.justice) + k as u64;
    Err(AigerError::Bad {
        kind: AigKind::Cycle,
        byte: skip_lines(bytes, 1 + line) as u32,
    })
}

impl Header {
    /// How many counted lines stand before those of the ands.
    fn lines_before_gates(&self, justice: u64) -> u64
        requires short { IsShort self.now }
        requires few { justice ≤ 10000000000 * 67108864 }
        ensures lines { result ≡ before (counts self.now justice) Gates }
        ensures small { result ≤ 10000000000 * 67108864 + 70000000000 }
    {
        let inputs = if self.binary { 0 } else { self.inputs };
        let front = inputs + self.latches + self.outputs + self.bads;
        front + self.constraints + self.justices + justice + self.fairs
    }
}

/// Where line `n` of the text begins, counted from 0. In time linear in the lines before.
fn skip_lines(bytes: &[u8], n: u64) -> usize
    ensures place { result ≡ place (lines bytes.now) n }
    ensures within { result ≤ length bytes.now }
{
    let mut at = 0;
    for _ in 0..n {
        at += line_at(bytes, at).len();
    }
    at
}
