//! The facts of a proof by induction.

ghost use Rattle.std.specs.Prelude.{◌≡◌, ◌++◌, ◌∷◌, [], ◌<◌, length, All, IfOk, IfSome, OnOk};
ghost use Rattle.aig_net.specs.Nets.{Below};
ghost use Rattle.cnf_frames.specs.declared.facts.Fact.TheVariants.{AnyOf};
ghost use Rattle.cnf_frames.specs.Facts.{AllIn, IsIn};

use anyhow::{Error, Result, anyhow, bail};
use cert_text::{FactLine, literals_of, read_fact};
use cnf_frames::{Fact, Inv};
use hy_base::NumList;
use hy_text::{cut, number};
use std::alloc::Global;

/// The facts that lines of the text say of a net with so many latches. Other lines are passed over.
pub fn facts_of(alloc: Global, text: &str, latches: usize) -> Result<Inv>
    ensures { IfOk result (AllIn latches) }
{
    let mut facts = Inv::new(alloc);
    for line in text.lines() {
        add_fact(alloc, &mut facts, line.as_bytes(), latches)?;
    }
    Ok(facts)
}

/// Adds the fact that the line says, if it says one.
fn add_fact(alloc: Global, facts: &mut Inv, line: &[u8], latches: usize) -> Result<()>
    requires { AllIn latches facts.old }
    ensures { OnOk result (AllIn latches facts.new) }
{
    if let Some(fact) = fact_in(alloc, line, latches)? {
        facts.push(fact)?;
    }
    Ok(())
}

/// The fact that the line says, if it says one, where its latches are there.
fn fact_in(alloc: Global, line: &[u8], latches: usize) -> Result<Option<Fact>>
    ensures { IfOk result (λ fact. IfSome fact (IsIn latches)) }
{
    if let Some(fact) = read_fact(line) {
        return Ok(Some(fact_within(fact, latches)?));
    }
    match literals_of(line) {
        Some(literals) => Ok(Some(clause_within(alloc, literals, latches)?)),
        None => Ok(None),
    }
}

/// The fact about one latch or two that a line says, where these are there.
fn fact_within(line: FactLine, latches: usize) -> Result<Fact>
    ensures { IfOk result (IsIn latches) }
{
    match line {
        FactLine::Zero(a) => Ok(Fact::Zero(latch_within(a, latches)?)),
        FactLine::One(a) => Ok(Fact::One(latch_within(a, latches)?)),
        FactLine::Same(a, b) => {
            let (a, b) = pair_within(a, b, latches)?;
            Ok(Fact::Same(a, b))
        }
        FactLine::Differ(a, b) => {
            let (a, b) = pair_within(a, b, latches)?;
            Ok(Fact::Differ(a, b))
        }
    }
}

fn pair_within(a: u64, b: u64, latches: usize) -> Result<(u32, u32)>
    ensures { IfOk result (λ pair. (pair.0 < latches) × (pair.1 < latches)) }
{
    Ok((latch_within(a, latches)?, latch_within(b, latches)?))
}

/// The place of a latch, where there is one.
fn latch_within(place: u64, latches: usize) -> Result<u32>
    ensures { IfOk result (λ place. place < latches) }
{
    match u32::try_from(place) {
        Ok(place) if (place as usize) < latches => Ok(place),
        _ => Err(no_latch(place, latches)),
    }
}

/// The clause of these literals, where their latches are there.
fn clause_within(alloc: Global, words: &[u8], latches: usize) -> Result<Fact>
    ensures { IfOk result (IsIn latches) }
{
    let mut literals = NumList::new(alloc);
    let mut left = words;
    while let Some((word, rest)) = cut(left, b' ') {
        add_literal(&mut literals, word, latches)?;
        left = rest;
    }
    add_literal(&mut literals, left, latches)?;
    Ok(Fact::AnyOf(literals))
}

/// Adds the literal that the word says, where its latch is there.
fn add_literal(literals: &mut NumList, word: &[u8], latches: usize) -> Result<()>
    requires { All (Below latches) literals.old }
    ensures { OnOk result (IsIn latches (AnyOf literals.new)) }
{
    let literal = literal_within(word, latches)?;
    literals.push(literal)?;
    Ok(())
}

/// The literal that the word says, where its latch is there.
fn literal_within(word: &[u8], latches: usize) -> Result<u32>
    ensures { IfOk result (Below latches) }
{
    let Some(literal) = number(word) else {
        bail!("a fact has a literal that is no number");
    };
    match u32::try_from(literal) {
        Ok(literal) if ((literal / 2) as usize) < latches => Ok(literal),
        _ => Err(no_latch(literal / 2, latches)),
    }
}

/// Says which latch is not there.
fn no_latch(place: u64, latches: usize) -> Error {
    anyhow!("a fact is about latch {place}, and there are {latches}")
}
