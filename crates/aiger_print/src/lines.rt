//! Lines of numbers.

ghost use Rattle.std.specs.Prelude.{◌≡◌, ◌+◌, ◌*◌, ◌<◌, ◌≤◌, ◌^◌, [], ◌∷◌, ◌++◌, length, decimal, OnOk};
ghost use Rattle.std.specs.List.{flat_map, range_with_len};
ghost use Rattle.aig_net.specs.Nets.{IsNet, variables};
ghost use Rattle.aiger_body.specs.Spelled.{spelled, line_of};
ghost use Rattle.aiger_print.specs.Printed.{header_row, header_len, input_row, latch_row, and_row, reset_row, lines_of, literal_lines};

use aig_net::{Net, Reset};
use hy_base::{M, Text};
use itoa::Buffer;

/// Adds the line of these numbers, with one space between two.
pub fn push_row(text: &mut Text, row: &[u64]) -> M<()>
    ensures { OnOk result (text.new ≡ text.old ++ line_of row.now) }
{
    let [first, rest @ ..] = row else {
        return text.push(b'\n');
    };
    let mut buffer = Buffer::new();
    text.extend(buffer.format(*first).as_bytes())?;
    push_others(text, rest)?;
    text.push(b'\n')
}

/// Adds the numbers, each behind a space.
fn push_others(text: &mut Text, numbers: &[u64]) -> M<()>
    ensures { OnOk result (text.new ≡ text.old ++ flat_map (λ n. 32 ∷ decimal n) numbers.now) }
{
    let mut buffer = Buffer::new();
    for n in numbers {
        text.extend(b" ")?;
        text.extend(buffer.format(*n).as_bytes())?;
    }
    Ok(())
}

/// Adds the first line: the form, the counts up to the last that is not 0, but five at least.
pub fn push_header(text: &mut Text, form: &[u8], net: &Net) -> M<()>
    ensures line { OnOk result (
        text.new ≡ (text.old ++ form.now) ++ line_of (header_row net.now)) }
    ensures net { IsNet net.now }
    ensures room { variables net.now ≤ 2 ^ 31 }
{
    let inputs = u64::from(net.inputs());
    let latches = net.latches().len() as u64;
    let outputs = net.outputs().len() as u64;
    let ands = net.ands().len() as u64;
    let constraints = net.constraints().len() as u64;
    let fairs = net.fairs().len() as u64;
    let top = u64::from(net.variables()) - 1;
    let row = [
        top,
        inputs,
        latches,
        outputs,
        ands,
        0,
        constraints,
        0,
        fairs,
    ];
    text.extend(form)?;
    push_row(text, &row[..header_len(constraints, fairs)])
}

/// How many numbers a header has.
fn header_len(constraints: u64, fairs: u64) -> usize
    ensures { result ≡ header_len constraints fairs }
{
    if fairs > 0 {
        9
    } else if constraints > 0 {
        7
    } else {
        5
    }
}

/// Adds the lines of the inputs.
#[tactic(auto, using(crate::proofs::Listing::listed_more))]
pub fn push_inputs(text: &mut Text, net: &Net) -> M<()>
    ensures { OnOk result (text.new ≡ text.old ++ lines_of input_row net.now.inputs) }
{
    for j in 0..net.inputs() {
        push_row(text, &[2 * (1 + u64::from(j))])?;
    }
    Ok(())
}

/// Adds the lines of the latches; in the binary form without their own literals.
#[tactic(auto, using(crate::proofs::Listing::listed_more))]
pub fn push_latches(text: &mut Text, binary: bool, net: &Net) -> M<()>
    requires net { IsNet net.now }
    requires room { variables net.now ≤ 2 ^ 31 }
    ensures { OnOk result (
        text.new ≡ text.old ++ lines_of (latch_row binary net.now) (length net.now.latches)) }
{
    for j in 0..net.latches().len() {
        push_latch(text, binary, net, j)?;
    }
    Ok(())
}

/// Adds the line of latch `j`. A reset is written where it is not 0.
fn push_latch(text: &mut Text, binary: bool, net: &Net, j: usize) -> M<()>
    requires net { IsNet net.now }
    requires room { variables net.now ≤ 2 ^ 31 }
    requires latch { j < length net.now.latches }
    ensures { OnOk result (text.new ≡ text.old ++ line_of (latch_row binary net.now j)) }
{
    let own = 2 * (1 + u64::from(net.inputs()) + j as u64);
    let next = u64::from(*net.latches().at(j));
    let reset = match net.resets().at(j) {
        Reset::Zero => 0,
        Reset::One => 1,
        Reset::Free => own,
    };
    let row = [own, next, reset];
    let first = if binary { 1 } else { 0 };
    let last = if reset == 0 { 2 } else { 3 };
    push_row(text, &row[first..last])
}

/// Adds a line for each literal.
pub fn push_literals(text: &mut Text, literals: &[u32]) -> M<()>
    ensures { OnOk result (text.new ≡ text.old ++ literal_lines literals.now) }
{
    for l in literals {
        push_row(text, &[u64::from(*l)])?;
    }
    Ok(())
}

/// Adds the lines of the ands.
#[tactic(auto, using(crate::proofs::Listing::listed_more))]
pub fn push_ands(text: &mut Text, net: &Net) -> M<()>
    requires net { IsNet net.now }
    requires room { variables net.now ≤ 2 ^ 31 }
    ensures { OnOk result (
        text.new ≡ text.old ++ lines_of (and_row net.now) (length net.now.ands)) }
{
    let first = 1 + u64::from(net.inputs()) + net.latches().len() as u64;
    let ands = net.ands().as_slice();
    for j in 0..ands.len() {
        let gate = &ands[j];
        let lhs = 2 * (first + j as u64);
        push_row(text, &[lhs, u64::from(gate.left), u64::from(gate.right)])?;
    }
    Ok(())
}
