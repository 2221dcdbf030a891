//! The printer of formulas.

ghost use Rattle.std.specs.Prelude.{◌≡◌, ◌<◌, ◌++◌, IfOk, OnOk};
ghost use Rattle.hy_formula.specs.Trees.{tree_of};
ghost use Rattle.hy_formula.specs.Formulas.{plain_formula};
ghost use Rattle.hy_read.specs.Printing.{variable_at, printed_quantifier, printed_quantifiers, printed_atom, printed_before, printed_between, printed_body, printed};

use crate::symbol::Symbol;
use hy_base::{M, Text};
use hy_formula::{Atom, Body, Formula, NameTable, Prefix, Quant};
use hy_text::push_name;
use itoa::Buffer;
use std::alloc::Global;

/// The text of a formula whose names are numbered by the table; a number that the table lacks is
/// printed as the empty name. In time linear in the text, and recursive over the body's height.
pub fn print_formula(alloc: Global, f: &Formula, names: &NameTable) -> M<Text>
    ensures { IfOk result (λ text. text ≡ printed names.now (plain_formula f.now)) }
{
    let mut out = Text::new(alloc);
    push_prefix(&mut out, &f.prefix)?;
    push_body(&mut out, &f.body, names)?;
    Ok(out)
}

/// Adds the quantifiers.
fn push_prefix(out: &mut Text, prefix: &Prefix) -> M<()>
    ensures { OnOk result (out.new ≡ out.old ++ printed_quantifiers 0 prefix.now) }
{
    for i in 0..prefix.len() {
        push_quantifier(out, prefix.at(i), i as u8)?;
    }
    Ok(())
}

/// Adds the quantifier of this place.
fn push_quantifier(out: &mut Text, quant: Quant, place: u8) -> M<()>
    ensures { OnOk result (out.new ≡ out.old ++ printed_quantifier place quant) }
{
    let word = match quant {
        Quant::Exists => Symbol::Exists,
        Quant::Forall => Symbol::Forall,
    };
    out.extend(word.spelling())?;
    out.push(b' ')?;
    push_variable(out, place)?;
    out.extend(b". ")
}

/// Adds the variable of this place.
fn push_variable(out: &mut Text, place: u8) -> M<()>
    ensures { OnOk result (out.new ≡ out.old ++ variable_at place) }
{
    let mut buffer = Buffer::new();
    out.push(b'x')?;
    out.extend(buffer.format(u32::from(place) + 1).as_bytes())
}

/// Adds an atom.
fn push_atom(out: &mut Text, atom: &Atom, names: &NameTable) -> M<()>
    ensures { OnOk result (out.new ≡ out.old ++ printed_atom names.now atom.now.name atom.now.var) }
{
    push_name(out, names.text(atom.name))?;
    out.push(b'_')?;
    push_variable(out, atom.var)
}

/// Adds a body.
#[cycle(print)]
fn push_body(out: &mut Text, body: &Body, names: &NameTable) -> M<()>
    ensures { OnOk result (out.new ≡ out.old ++ printed_body names.now (tree_of body.now)) }
{
    match body {
        Body::True => out.extend(b"true"),
        Body::False => out.extend(b"false"),
        Body::Atom(atom) => push_atom(out, atom, names),
        Body::Not(f) => {
            out.push(b'!')?;
            push_body(out, f, names)
        }
        Body::Next(f) => push_before(out, Symbol::Next, f, names),
        Body::Finally(f) => push_before(out, Symbol::Finally, f, names),
        Body::Globally(f) => push_before(out, Symbol::Globally, f, names),
        Body::And(f, g) => push_between(out, f, Symbol::And, g, names),
        Body::Or(f, g) => push_between(out, f, Symbol::Or, g, names),
        Body::Implies(f, g) => push_between(out, f, Symbol::Implies, g, names),
        Body::Iff(f, g) => push_between(out, f, Symbol::Iff, g, names),
        Body::Until(f, g) => push_between(out, f, Symbol::Until, g, names),
        Body::Release(f, g) => push_between(out, f, Symbol::Release, g, names),
        Body::Weak(f, g) => push_between(out, f, Symbol::Weak, g, names),
    }
}

/// Adds an operator and the operand behind it.
#[cycle(print)]
fn push_before(out: &mut Text, sign: Symbol, f: &Body, names: &NameTable) -> M<()>
    ensures { OnOk result (out.new ≡ out.old ++ printed_before sign (printed_body names.now (tree_of f.now))) }
{
    out.extend(sign.spelling())?;
    out.push(b' ')?;
    push_body(out, f, names)
}

/// Adds an operator between its operands.
#[cycle(print)]
fn push_between(out: &mut Text, f: &Body, sign: Symbol, g: &Body, names: &NameTable) -> M<()>
    ensures { OnOk result (out.new ≡ out.old ++ printed_between sign (printed_body names.now (tree_of f.now)) (printed_body names.now (tree_of g.now))) }
{
    out.push(b'(')?;
    push_body(out, f, names)?;
    out.push(b' ')?;
    out.extend(sign.spelling())?;
    out.push(b' ')?;
    push_body(out, g, names)?;
    out.push(b')')
}
