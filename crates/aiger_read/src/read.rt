//! The net of a circuit text.

ghost use Rattle.std.specs.Prelude.{◌≡◌, ◌+◌, ◌/◌, ◌≤◌, ◌∷◌, ◌++◌, map, length, IfOk, OnOk};
ghost use Rattle.aig_order.specs.Gates.{gate_at};
ghost use Rattle.aiger_body.specs.Bodies.{IsBody};
ghost use Rattle.aiger_body.specs.Files.{own_variables};
ghost use Rattle.aiger_read.specs.Naming.{AreNamed};
ghost use Rattle.aiger_read.specs.Numbers.{numbered};
ghost use Rattle.aiger_read.specs.Readings.{IsReadAnswer, AreParts, AreOf, renumbered_by, and_by};

use crate::names::{Names, read_names};
use crate::numbering::Numbering;
use aig_net::{And, AndList, Net, NetParts, ResetList};
use aig_order::Gate;
use aiger_body::{AigerError, Body, Latch, read_body};
use hy_base::{List, M, NumList};
use std::alloc::Global;

/// Reads a circuit text of either form. In time linear in the bytes, but for the order of the ands,
/// which are taken in time n log n.
///
/// A net comes exactly where the bytes are its text: its inputs and latches in their order, its
/// ands as they are taken, the first of the text again and again that uses only what has a number,
/// and their larger right side first. Every other answer but want of memory is what the table of
/// faults says: `Bad` has the first fault and its byte, `Limit` comes where the header is right and
/// its greatest variable is past 1,048,576.
pub fn read_aiger(alloc: Global, bytes: &[u8]) -> Result<Net, AigerError>
    requires { length bytes.now ≤ 67108864 }
    ensures answer { IsReadAnswer bytes.now result }
    ensures variables { IfOk result (λ net.
        net.inputs + length net.latches + length net.ands ≤ 1048576) }
    ensures literals { IfOk result (λ net.
        length net.outputs + length net.constraints + length net.fairs ≤ length bytes.now) }
{
    let body = read_body(alloc, bytes)?;
    let names = read_names(alloc, bytes, &body.header, body.tail)?;
    let parts = parts(alloc, bytes, &body, names)?;
    Ok(Net::new(parts))
}

/// The parts of the net.
fn parts(alloc: Global, bytes: &[u8], body: &Body, names: Names) -> M<NetParts>
    requires body { IsBody bytes.now body.now }
    requires names { AreNamed body.now.header bytes.now names }
    ensures { IfOk result (λ parts. AreParts bytes.now body.now parts) }
{
    let content = &body.content;
    let variables = in_order(alloc, body)?;
    let numbering = Numbering::new(alloc, variables.as_slice())?;
    let latches = content.latches.as_slice();
    let gates = content.gates.as_slice();
    Ok(NetParts {
        inputs: content.inputs.len() as u32,
        latches: nexts(alloc, latches, &numbering)?,
        resets: resets(alloc, latches)?,
        ands: ands(alloc, gates, body.order.as_slice(), &numbering)?,
        outputs: literals(alloc, content.outputs.as_slice(), &numbering)?,
        constraints: literals(alloc, content.constraints.as_slice(), &numbering)?,
        fairs: literals(alloc, content.fairs.as_slice(), &numbering)?,
        input_names: names.inputs,
        latch_names: names.latches,
        output_names: names.outputs,
    })
}

/// The variables of the text in the net's order: the constant, inputs, latches, ands.
fn in_order(alloc: Global, body: &Body) -> M<NumList>
    requires { AreOf body.now.order body.now.content.gates }
    ensures { IfOk result (λ list. list ≡ (0 ∷ own_variables body.now.content)
        ++ map (λ k. (gate_at body.now.content.gates k).lhs / 2) body.now.order) }
{
    let content = &body.content;
    let mut list = List::new(alloc);
    list.push(0)?;
    for l in content.inputs.as_slice() {
        list.push(*l / 2)?;
    }
    for latch in content.latches.as_slice() {
        list.push(latch.own / 2)?;
    }
    push_gates(content.gates.as_slice(), body.order.as_slice(), &mut list)?;
    Ok(list)
}

/// Adds the variables of the ands in this order.
fn push_gates(gates: &[Gate], order: &[u32], list: &mut NumList) -> M<()>
    requires { AreOf order.now gates.now }
    ensures { OnOk result (list.new ≡
        list.old ++ map (λ k. (gate_at gates.now k).lhs / 2) order.now) }
{
    for k in order {
        list.push(gates[*k as usize].lhs / 2)?;
    }
    Ok(())
}

/// The next literals of the latches, with the new numbers.
fn nexts(alloc: Global, latches: &[Latch], numbering: &Numbering) -> M<NumList>
    ensures { IfOk result (λ list. list ≡
        map (λ l. renumbered_by (numbered numbering.now) l.next) latches.now) }
{
    let list = latches
        .iter()
        .map(|l| numbering.literal(l.next))
        .collect(alloc)?;
    Ok(List::from_vec(list))
}

fn resets(alloc: Global, latches: &[Latch]) -> M<ResetList>
    ensures { IfOk result (λ list. list ≡ map (λ l. l.reset) latches.now) }
{
    let mut list = List::new(alloc);
    for latch in latches {
        list.push(latch.reset)?;
    }
    Ok(list)
}

/// The literals with the new numbers.
fn literals(alloc: Global, literals: &[u32], numbering: &Numbering) -> M<NumList>
    ensures { IfOk result (λ list. list ≡
        map (λ l. renumbered_by (numbered numbering.now) l) literals.now) }
{
    let list = literals
        .iter()
        .map(|l| numbering.literal(*l))
        .collect(alloc)?;
    Ok(List::from_vec(list))
}

/// The ands in this order, with the new numbers.
fn ands(alloc: Global, gates: &[Gate], order: &[u32], numbering: &Numbering) -> M<AndList>
    requires { AreOf order.now gates.now }
    ensures { IfOk result (λ list. list ≡
        map (λ k. and_by (numbered numbering.now) (gate_at gates.now k)) order.now) }
{
    let mut list = List::new(alloc);
    for k in order {
        list.push(and(&gates[*k as usize], numbering))?;
    }
    Ok(list)
}

/// The and with the new numbers, its larger right side first.
fn and(gate: &Gate, numbering: &Numbering) -> And
    ensures { result ≡ and_by (numbered numbering.now) gate.now }
{
    let left = numbering.literal(gate.left);
    let right = numbering.literal(gate.right);
    And {
        left: left.max(right),
        right: left.min(right),
    }
}
