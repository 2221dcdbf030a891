//! From a fair walk to lassos of letters.

ghost use Rattle.std.specs.Prelude.{◌≡◌, ◌≤◌, ◌<◌, ◌*◌, ℕ, length, slice_index_or, slice_set, All, IfOk};
ghost use Rattle.std.specs.FinSet.{empty, insert};
ghost use Rattle.ltl_closure.specs.Plain.{plain_node};
ghost use Rattle.ltl_tableau.specs.WalkWords.{with_literal, VariableBelow, VariablesBelow};
ghost use Rattle.ea_core.specs.Shown.{letters_of, rows_of};

use ea_reduce::{Joint, WordList};
use fair_search::FairLasso;
use hy_base::M;
use hy_bits::{LetterMask, Letters};
use hy_formula::Atom;
use ltl_closure::{Closure, Node};
use ltl_tableau::{Branch, Tableau};
use std::alloc::Global;

/// The letters of `vars` variables along a walk, whose nodes are branches of the tableau. In time
/// linear in the walk, for each branch in the closure.
pub fn joint<const W: usize>(
    alloc: Global,
    c: &Closure,
    tableau: &Tableau<W>,
    walk: &FairLasso,
    vars: u8,
) -> M<Joint>
    requires width { W ≤ 16 }
    requires members { length c.now.nodes ≤ 64 * W }
    requires variables { VariablesBelow vars c.now.nodes }
    requires stem { All (λ k. k < length tableau.now.branches.keys) walk.now.stem }
    requires cycle { All (λ k. k < length tableau.now.branches.keys) walk.now.cycle }
    ensures stem { IfOk result (λ j.
        j.stem ≡ rows_of c.now.nodes vars tableau.now.branches.keys walk.now.stem) }
    ensures cycle { IfOk result (λ j.
        j.cycle ≡ rows_of c.now.nodes vars tableau.now.branches.keys walk.now.cycle) }
{
    Ok(Joint {
        stem: rows(alloc, c, tableau, walk.stem.as_slice(), vars)?,
        cycle: rows(alloc, c, tableau, walk.cycle.as_slice(), vars)?,
    })
}

/// The letters at the branches with these numbers.
fn rows<const W: usize>(
    alloc: Global,
    c: &Closure,
    tableau: &Tableau<W>,
    nodes: &[u32],
    vars: u8,
) -> M<WordList>
    requires width { W ≤ 16 }
    requires members { length c.now.nodes ≤ 64 * W }
    requires variables { VariablesBelow vars c.now.nodes }
    requires made { All (λ k. k < length tableau.now.branches.keys) nodes.now }
    ensures { IfOk result (λ rows.
        rows ≡ rows_of c.now.nodes vars tableau.now.branches.keys nodes.now) }
{
    let mut rows = WordList::new(alloc);
    for node in nodes {
        rows.push(letters(alloc, c, tableau.branch(*node), vars)?)?;
    }
    Ok(rows)
}

/// The letters at a branch: for each variable the names whose literals are to hold now.
fn letters<const W: usize>(alloc: Global, c: &Closure, branch: &Branch<W>, vars: u8) -> M<Letters>
    requires width { W ≤ 16 }
    requires members { length c.now.nodes ≤ 64 * W }
    requires variables { VariablesBelow vars c.now.nodes }
    ensures { IfOk result (λ row. row ≡ letters_of c.now.nodes vars branch.entry.now) }
{
    let mut row = Letters::filled(alloc, LetterMask::empty(), usize::from(vars))?;
    for k in 0..c.len() {
        if branch.now.has(k) {
            add_literal(&mut row, c.node(k as u16));
        }
    }
    Ok(row)
}

/// Adds the name of a positive literal to the letter of its variable.
fn add_literal(row: &mut Letters, node: Node)
    requires { VariableBelow (length row.old) (plain_node node) }
    ensures long { length row.new ≡ length row.old }
    ensures letters { (v : ℕ) → v < length row.old → slice_index_or row.new v empty
        ≡ with_literal v (plain_node node) (slice_index_or row.old v empty) }
{
    if let Node::Lit { atom, positive } = node {
        if positive {
            add_name(row, atom);
        }
    }
}

/// Adds the name of an atom to the letter of its variable.
fn add_name(row: &mut Letters, atom: Atom)
    requires { atom.var < length row.old }
    ensures { row.new ≡ slice_set row.old atom.var
        (insert (slice_index_or row.old atom.var empty) atom.name) }
{
    let var = usize::from(atom.var);
    let letter = row.at(var).with(usize::from(atom.name));
    row.set(var, letter);
}
