//! The question whether a strategy wins, as a net and a universal formula.

ghost use Rattle.std.specs.Prelude.{◌≡◌, ◌+◌, ◌≤◌, ◌<◌, ◌↔◌, [], ◌∷◌, length, map, IsTrue, IfErr, IfOk, IfSome, IfNone};
ghost use Rattle.hy_formula.specs.declared.prefix.Quant.TheVariants.{Forall};
ghost use Rattle.hy_formula.specs.Trees.{tree_of, vars_below};
ghost use Rattle.hy_formula.specs.Atoms.{atoms_of, plain_atom};
ghost use Rattle.strat_compose.specs.Driving.{AreInside, AreSet, IsSmall, IsStrategy, name_count};
ghost use Rattle.strat_compose.specs.Refusals.{AreShaped, IsDriven, IsMade, IsRefusal};
ghost use Rattle.strat_compose.specs.declared.question.DriveError.TheVariants.{Memory as OutOfMemory};

use crate::counting::{Counts, count_quantifiers};
use crate::demanding::driven_body;
use crate::driving::driven_net;
use crate::fresh::fresh_table;
use aig_net::{Net, Reset, Signals};
use hy_base::{Kind, Limit, M, Memory};
use hy_formula::{Atom, AtomList, Body, Class, Formula, NameTable, Prefix, Quant, atoms_of, class};
use net_names::{NameError, signals_of};
use std::alloc::Global;

/// A net, a formula with one universal quantifier, and the names of its atoms, which are those of
/// the net's outputs.
#[derive(Drop)]
pub struct Driven {
    pub net: Net,
    pub formula: Formula,
    pub names: NameTable,
}

/// Why nothing was driven: the first cause in this order, but for memory, which may be wanted
/// wherever it is taken.
#[derive(Clone, Copy, Debug, PartialEq, Eq)]
pub enum DriveError {
    /// The universal quantifiers don't come first, or not both kinds are there.
    Prefix(Class),
    /// The strategy has not so many inputs and outputs, or has a constraint, a fairness literal or
    /// an uninitialised latch.
    Shape { inputs: u32, outputs: u32 },
    /// A count is past its limit: that of the names of the driven formula.
    Limit(Limit),
    /// The first name of the formula, by its number, that nothing in the circuit has, or that
    /// `twice` stands for different literals.
    Name { name: u8, twice: bool },
    /// Memory ran out.
    Memory,
}

impl From<Memory> for DriveError {
    ghost from_gives = { λ _ e. e ≡ OutOfMemory };

    fn from(_e: Memory) -> DriveError {
        DriveError::Memory
    }
}

/// The net of a circuit that a strategy drives, and the formula that holds of it exactly where the
/// strategy wins. In time linear in the copies, in the body times its atoms, and in the circuit's
/// names for each name of the body.
///
/// # Errors
///
/// As `DriveError` says.
pub fn drive(
    alloc: Global,
    net: &Net,
    strategy: &Net,
    formula: &Formula,
    names: &NameTable,
) -> Result<Driven, DriveError>
    requires small { IsSmall net.now }
    requires slight { IsSmall strategy.now }
    requires quantifiers { length formula.now.prefix ≤ 4 }
    ensures driven { IfOk result (IsDriven net.now strategy.now formula.now.prefix
        (tree_of formula.now.body) names.now) }
    ensures refused { IfErr result (IsRefusal net.now strategy.now formula.now.prefix
        (tree_of formula.now.body) names.now) }
{
    net.variables(); // what each net keeps
    let Some(counts) = count_quantifiers(&formula.prefix) else {
        return Err(DriveError::Prefix(class(formula)));
    };
    let (m, e) = (counts.universal, counts.existential);
    if !is_strategy(net, strategy, m, e) {
        return Err(DriveError::Shape {
            inputs: net.inputs() * m,
            outputs: net.inputs() * e,
        });
    }
    let Some(atoms) = few_atoms(alloc, net, e, &formula.body)? else {
        return Err(DriveError::Limit(Limit {
            kind: Kind::StrategyNames,
            limit: 64,
        }));
    };
    match signals_of(alloc, net, &formula.body, names) {
        Err(NameError::Memory) => Err(DriveError::Memory),
        Err(NameError::Bad { name, twice }) => Err(DriveError::Name { name, twice }),
        Ok(signals) => {
            let atoms = atoms.as_slice();
            let made = make(alloc, net, strategy, counts, formula, atoms, &signals)?;
            Ok(made)
        }
    }
}

/// The driven net, the driven formula and its names, where nothing is refused.
fn make(
    alloc: Global,
    net: &Net,
    strategy: &Net,
    counts: Counts,
    formula: &Formula,
    atoms: &[Atom],
    signals: &Signals,
) -> M<Driven>
    requires small { IsSmall net.now }
    requires slight { IsSmall strategy.now }
    requires quantifiers { length formula.now.prefix ≤ 4 }
    requires shaped { AreShaped net.now strategy.now formula.now.prefix counts.universal
        counts.existential }
    requires atoms { map plain_atom atoms.now ≡ atoms_of (tree_of formula.now.body) }
    requires few { name_count net.now counts.existential (map plain_atom atoms.now) ≤ 64 }
    requires signals { AreInside net.now signals.now }
    ensures { IfOk result (IsMade net.now strategy.now counts.universal counts.existential
        signals.now (tree_of formula.now.body)) }
{
    let Counts {
        universal: m,
        existential: e,
    } = counts;
    let owed = e as usize * net.fairs().len();
    let many = atoms.len() + 1 + owed;
    Ok(Driven {
        net: driven_net(alloc, net, strategy, m, e, atoms, signals)?,
        formula: universal_formula(alloc, driven_body(alloc, net, e, atoms, &formula.body)?)?,
        names: fresh_table(alloc, many as u8)?,
    })
}

/// The formula with one universal quantifier before the body.
fn universal_formula(alloc: Global, body: Body) -> M<Formula>
    requires { IsTrue (vars_below 1 (tree_of body)) }
    ensures prefix { IfOk result (λ made. made.prefix ≡ Forall ∷ []) }
    ensures body { IfOk result (λ made. tree_of made.body ≡ tree_of body) }
{
    let prefix = Prefix::new(alloc, &[Quant::Forall])?;
    Ok(Formula { prefix, body })
}

/// Whether the strategy has the shape for `m` universal and `e` existential copies.
fn is_strategy(net: &Net, strategy: &Net, m: u32, e: u32) -> bool
    requires small { IsSmall net.now }
    requires few { m + e ≤ 4 }
    ensures { IsTrue result ↔ IsStrategy net.now strategy.now m e }
{
    net.inputs() * m == strategy.inputs()
        && (net.inputs() * e) as usize == strategy.outputs().len()
        && strategy.constraints().is_empty()
        && strategy.fairs().is_empty()
        && are_set(strategy.resets().as_slice())
}

/// Whether no latch is uninitialised.
fn are_set(resets: &[Reset]) -> bool
    ensures { IsTrue result ↔ AreSet resets.now }
{
    for reset in resets {
        if *reset == Reset::Free {
            return false;
        }
    }
    true
}

/// The atoms of a body, or `None` exactly where the driven formula needs more than 64 names: one for
/// each atom, one more, and one for each fairness literal of the `e` existential copies.
fn few_atoms(alloc: Global, net: &Net, e: u32, body: &Body) -> M<Option<AtomList>>
    requires small { IsSmall net.now }
    requires few { e ≤ 4 }
    ensures atoms { IfOk result (λ found. IfSome found (λ list. map plain_atom list
        ≡ atoms_of (tree_of body.now))) }
    ensures few { IfOk result (λ found. IfSome found (λ list.
        name_count net.now e (map plain_atom list) ≤ 64)) }
    ensures many { IfOk result (λ found. IfNone found
        (64 < name_count net.now e (atoms_of (tree_of body.now)))) }
{
    let owed = e as usize * net.fairs().len();
    if owed > 63 {
        return Ok(None);
    }
    let Some(atoms) = atoms_of(alloc, body, 63 - owed)? else {
        return Ok(None);
    };
    Ok(Some(atoms))
}
