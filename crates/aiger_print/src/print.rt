//! Printers of nets.

ghost use Rattle.std.specs.Prelude.{◌≡◌, ◌++◌, IfOk, OnOk};
ghost use Rattle.aiger_print.specs.Printed.{aag_text, aig_text, uses_text, names_text};

use crate::binary::push_deltas;
use crate::lines::{push_ands, push_header, push_inputs, push_latches, push_literals};
use crate::symbols::push_symbols;
use aig_net::Net;
use hy_base::{M, Text};
use std::alloc::Global;

/// The text of the net in the ASCII form: its lines with the net's variables, then a symbol for
/// each name, and no comment. In time linear in the text.
pub fn print_aag(alloc: Global, net: &Net) -> M<Text>
    ensures { IfOk result (λ text. text ≡ aag_text net.now) }
{
    let mut text = Text::new(alloc);
    push_header(&mut text, b"aag ", net)?;
    push_inputs(&mut text, net)?;
    push_latches(&mut text, false, net)?;
    push_uses(&mut text, net)?;
    push_ands(&mut text, net)?;
    push_names(&mut text, net)?;
    Ok(text)
}

/// The text of the net in the binary form, in time linear in the text.
pub fn print_aig(alloc: Global, net: &Net) -> M<Text>
    ensures { IfOk result (λ text. text ≡ aig_text net.now) }
{
    let mut text = Text::new(alloc);
    push_header(&mut text, b"aig ", net)?;
    push_latches(&mut text, true, net)?;
    push_uses(&mut text, net)?;
    push_deltas(&mut text, net)?;
    push_names(&mut text, net)?;
    Ok(text)
}

/// Adds the lines of outputs, constraints and fairness literals.
fn push_uses(text: &mut Text, net: &Net) -> M<()>
    ensures { OnOk result (text.new ≡ text.old ++ uses_text net.now) }
{
    push_literals(text, net.outputs().as_slice())?;
    push_literals(text, net.constraints().as_slice())?;
    push_literals(text, net.fairs().as_slice())
}

/// Adds the symbols of inputs, latches and outputs.
fn push_names(text: &mut Text, net: &Net) -> M<()>
    ensures { OnOk result (text.new ≡ text.old ++ names_text net.now) }
{
    push_symbols(text, b'i', net.input_names())?;
    push_symbols(text, b'l', net.latch_names())?;
    push_symbols(text, b'o', net.output_names())
}
