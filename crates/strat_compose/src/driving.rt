//! The driven net.

ghost use Rattle.std.specs.Prelude.{◌≡◌, suc, ◌+◌, ◌*◌, ◌≤◌, ◌<◌, ◌^◌, [], ◌∷◌, ◌++◌, All, IfOk, OnOk, map, take, length};
ghost use Rattle.aig_net.specs.Wires.{Fits, Makes, all_of, literal};
ghost use Rattle.hy_base.specs.Rows.{listed};
ghost use Rattle.hy_formula.specs.Atoms.{plain_atom};
ghost use Rattle.strat_compose.specs.Driving as Driving;
ghost use Rattle.strat_compose.specs.Driving.{AreKept, AreInside, HaveRoom, IsSmall, IsStrategy, atom_literal as atom_literal_of, conjunction, driven, driven_ands, driven_latches, driven_outputs, driven_resets, fresh_name, fresh_names as fresh_names_of, name_count, no_names, owed_literals, settled as settled_by, signal_of};
ghost use Rattle.strat_compose.specs.Groups.{HasRoom, literals_in};

use crate::copying::add_copies;
use crate::group::Group;
use crate::parts::{Parts, parts_of};
use aig_net::{AndList, Gates, NameList, Net, NetParts, Reset, ResetList, Signals};
use hy_base::{List, M, NumList};
use hy_formula::Atom;
use std::alloc::Global;

/// The circuit driven by a strategy: `m` universal copies, the strategy on their inputs, and `e`
/// existential copies with the strategy's outputs as inputs. Its outputs are the atoms, whether the
/// existential copies keep their constraints, and the fairness literals of these copies. In time
/// linear in the copies, but that each atom is looked for among the signals.
pub fn driven_net(
    alloc: Global,
    net: &Net,
    strategy: &Net,
    m: u32,
    e: u32,
    atoms: &[Atom],
    signals: &Signals,
) -> M<Net>
    requires small { IsSmall net.now }
    requires slight { IsSmall strategy.now }
    requires shape { IsStrategy net.now strategy.now m e }
    requires universal { 0 < m }
    requires existential { 0 < e }
    requires few { m + e ≤ 4 }
    requires atoms { All (λ a. a.var < m + e) atoms.now }
    requires signals { AreInside net.now signals.now }
    requires names { name_count net.now e (map plain_atom atoms.now) ≤ 64 }
    ensures { IfOk result (λ made. made ≡ driven net.now strategy.now
        (Driving.parts_of net.now strategy.now m e) (signal_of signals.now)
        (map plain_atom atoms.now)) }
{
    net.variables(); // what each net keeps
    strategy.variables();
    let parts = parts_of(alloc, net, strategy, m, e)?;
    let made = net_parts(alloc, net, strategy, &parts, atoms, signals)?;
    Ok(Net::new(made))
}

/// The parts of the driven net.
fn net_parts(
    alloc: Global,
    net: &Net,
    strategy: &Net,
    parts: &Parts,
    atoms: &[Atom],
    signals: &Signals,
) -> M<NetParts>
    requires room { HaveRoom net.now strategy.now parts.now }
    requires atoms { All (λ a. a.var < parts.now.universal.copies + parts.now.existential.copies)
        atoms.now }
    requires signals { AreInside net.now signals.now }
    requires few { length (driven_outputs net.now strategy.now parts.now (signal_of signals.now)
        (map plain_atom atoms.now)) ≤ 64 }
    requires fits { Fits parts.now.universal.gate (driven_ands net.now strategy.now parts.now)
        (conjunction (owed_literals net.now parts.now)) }
    ensures { IfOk result (λ made. made ≡ driven net.now strategy.now parts.now
        (signal_of signals.now) (map plain_atom atoms.now)) }
{
    net.variables(); // what each net keeps
    let Kept { ands, literal } = keep(alloc, net, strategy, parts)?;
    let inputs = net.inputs() * parts.universal.copies;
    let latches = latches(alloc, net, strategy, parts)?;
    let many = latches.len();
    let outputs = outputs(alloc, net, parts, literal, atoms, signals)?;
    let named = outputs.len() as u8;
    Ok(NetParts {
        inputs,
        latches,
        resets: resets(alloc, net, strategy, parts)?,
        ands,
        outputs,
        constraints: (parts.universal).literals(alloc, net, net.constraints().as_slice())?,
        fairs: (parts.universal).literals(alloc, net, net.fairs().as_slice())?,
        input_names: without_names(alloc, inputs as usize)?,
        latch_names: without_names(alloc, many)?,
        output_names: fresh_names(alloc, named)?,
    })
}

/// The ands of a driven net, and the literal that says that the existential copies keep their
/// constraints.
#[derive(Drop)]
pub struct Kept {
    pub ands: AndList,
    pub literal: u32,
}

/// Makes all ands, in time linear in them.
fn keep(alloc: Global, net: &Net, strategy: &Net, parts: &Parts) -> M<Kept>
    requires room { HaveRoom net.now strategy.now parts.now }
    requires fits { Fits parts.now.universal.gate (driven_ands net.now strategy.now parts.now)
        (conjunction (owed_literals net.now parts.now)) }
    ensures { IfOk result (AreKept net.now strategy.now parts.now) }
{
    net.variables(); // what each net keeps
    let mut gates = Gates {
        first: parts.universal.gate,
        ands: ands(alloc, net, strategy, parts)?,
    };
    let owed = (parts.existential).literals(alloc, net, net.constraints().as_slice())?;
    let literal = conjoin(&mut gates, owed.as_slice())?;
    Ok(Kept {
        ands: gates.ands,
        literal,
    })
}

/// The literals of all outputs, in time linear in them and, for each atom, in the signals.
fn outputs(
    alloc: Global,
    net: &Net,
    parts: &Parts,
    kept: u32,
    atoms: &[Atom],
    signals: &Signals,
) -> M<NumList>
    requires universal { HasRoom net.now parts.now.universal }
    requires existential { HasRoom net.now parts.now.existential }
    requires atoms { All (λ a. a.var < parts.now.universal.copies + parts.now.existential.copies)
        atoms.now }
    requires signals { AreInside net.now signals.now }
    ensures { IfOk result (λ made. made
        ≡ (map (atom_literal_of net.now parts.now (signal_of signals.now))
        (map plain_atom atoms.now) ++ kept ∷ [])
        ++ literals_in net.now parts.now.existential net.now.fairs) }
{
    net.variables(); // what each net keeps
    let mut made = List::new(alloc);
    for atom in atoms {
        made.push(atom_literal(net, parts, signals, *atom))?;
    }
    made.push(kept)?;
    parts
        .existential
        .add_literals(net, net.fairs().as_slice(), &mut made)?;
    Ok(made)
}

/// The literal of an atom, in time linear in the signals.
#[tactic(auto, using(crate::proofs::SignalBounds::own_signal))]
fn atom_literal(net: &Net, parts: &Parts, signals: &Signals, atom: Atom) -> u32
    requires universal { HasRoom net.now parts.now.universal }
    requires existential { HasRoom net.now parts.now.existential }
    requires atom { atom.var < parts.now.universal.copies + parts.now.existential.copies }
    requires signals { AreInside net.now signals.now }
    ensures { result ≡ atom_literal_of net.now parts.now (signal_of signals.now)
        (plain_atom atom) }
{
    let literal = signals.find(atom.name, 0).unwrap_or(0);
    let variable = u32::from(atom.var);
    let many = parts.universal.copies;
    if variable < many {
        parts.universal.literal(net, variable, literal)
    } else {
        parts.existential.literal(net, variable - many, literal)
    }
}

/// The next literals of all latches, in time linear in them.
fn latches(alloc: Global, net: &Net, strategy: &Net, parts: &Parts) -> M<NumList>
    requires room { HaveRoom net.now strategy.now parts.now }
    ensures { IfOk result (λ made. made ≡ driven_latches net.now strategy.now parts.now) }
{
    net.variables(); // what each net keeps
    strategy.variables();
    let mut made = List::new(alloc);
    let own = net.latches().as_slice();
    parts.universal.add_literals(net, own, &mut made)?;
    parts.existential.add_literals(net, own, &mut made)?;
    parts
        .player
        .add_literals(strategy, strategy.latches().as_slice(), &mut made)?;
    Ok(made)
}

/// The resets of all latches, in time linear in them.
fn resets(alloc: Global, net: &Net, strategy: &Net, parts: &Parts) -> M<ResetList>
    requires room { HaveRoom net.now strategy.now parts.now }
    ensures { IfOk result (λ made. made ≡ driven_resets net.now strategy.now parts.now) }
{
    let mut made = List::new(alloc);
    add_copies(&parts.universal, net, net.resets().as_slice(), &mut made)?;
    let settled = settled_resets(alloc, net.resets().as_slice())?;
    add_copies(&parts.existential, net, settled.as_slice(), &mut made)?;
    add_copies(
        &parts.player,
        strategy,
        strategy.resets().as_slice(),
        &mut made,
    )?;
    Ok(made)
}

/// The resets of an existential copy, in time linear in them.
fn settled_resets(alloc: Global, resets: &[Reset]) -> M<ResetList>
    ensures { IfOk result (λ made. made ≡ map settled_by resets.now) }
{
    let mut made = List::new(alloc);
    for reset in resets {
        made.push(settled(*reset))?;
    }
    Ok(made)
}

/// The reset of a latch in an existential copy.
fn settled(reset: Reset) -> Reset
    ensures { result ≡ settled_by reset }
{
    match reset {
        Reset::Zero | Reset::Free => Reset::Zero,
        Reset::One => Reset::One,
    }
}

/// The ands of all parts, in time linear in them.
fn ands(alloc: Global, net: &Net, strategy: &Net, parts: &Parts) -> M<AndList>
    requires room { HaveRoom net.now strategy.now parts.now }
    ensures { IfOk result (λ made. made ≡ driven_ands net.now strategy.now parts.now) }
{
    let mut made = List::new(alloc);
    parts.universal.add_ands(net, &mut made)?;
    parts.player.add_ands(strategy, &mut made)?;
    parts.existential.add_ands(net, &mut made)?;
    Ok(made)
}

/// The literal that says that all literals are true: one and less than there are literals.
fn conjoin(gates: &mut Gates, literals: &[u32]) -> M<u32>
    requires { Fits gates.old.first gates.old.ands (conjunction literals.now) }
    ensures made { IfOk result
        (Makes gates.old.first gates.old.ands (conjunction literals.now) gates.new.ands) }
    ensures first { gates.new.first ≡ gates.old.first }
{
    match literals {
        [] => Ok(1),
        [first, rest @ ..] => conjoin_with(gates, *first, rest),
    }
}

/// The literal that says that a literal and others are true.
fn conjoin_with(gates: &mut Gates, first: u32, rest: &[u32]) -> M<u32>
    requires { Fits gates.old.first gates.old.ands (all_of (literal first) (map literal rest.now)) }
    ensures made { IfOk result (Makes gates.old.first gates.old.ands
        (all_of (literal first) (map literal rest.now)) gates.new.ands) }
    ensures first { gates.new.first ≡ gates.old.first }
{
    let mut all = first;
    for literal in rest {
        all = gates.both(all, *literal)?;
    }
    Ok(all)
}

/// `n` times no name.
#[tactic(auto, using(hy_base::proofs::Listed::listed_next))]
fn without_names(alloc: Global, n: usize) -> M<NameList>
    ensures { IfOk result (λ made. made ≡ no_names n) }
{
    let mut made = List::new(alloc);
    for i in 0..n {
        made.push(List::new(alloc))?;
    }
    Ok(made)
}

/// Names of one byte each.
fn fresh_names(alloc: Global, n: u8) -> M<NameList>
    requires { n ≤ 64 }
    ensures { IfOk result (λ made. made ≡ fresh_names_of n) }
{
    let mut made = List::new(alloc);
    for k in 0..n {
        let mut name = List::new(alloc);
        name.push(48 + k)?;
        made.push(name)?;
    }
    Ok(made)
}
