//! The members of a closure, and which atoms each of them asks now.

ghost use Rattle.std.specs.Prelude.{◌≡◌, ◌≤◌, ◌<◌, ◌*◌, length, map, slice_index, IfOk};
ghost use Rattle.ltl_closure.specs.Nodes.{PartsBelow};
ghost use Rattle.ltl_closure.specs.Plain.{plain_node};
ghost use Rattle.hy_formula.specs.Atoms.{plain_atom};
ghost use Rattle.fin_monitor.specs.Lefts.{AreMasks, IsAskedNode, IsAskedAll, IsAskedBelow, IsPart};

use crate::atoms::mask_of;
use crate::duty::Duty;
use hy_base::{M, NumList};
use hy_formula::Atom;
use ltl_closure::{Closure, Node};
use std::alloc::Global;

/// The masks of the atoms that the members ask now, one for each member: what it leaves after a joint
/// letter depends on these bits of its code alone. In time linear in the closure.
pub fn asked_masks(alloc: Global, closure: &Closure, atoms: &[Atom]) -> M<NumList>
    requires { length atoms.now ≤ 16 }
    ensures { IfOk result (AreMasks closure.now.nodes (map plain_atom atoms.now)) }
{
    let mut masks = NumList::new(alloc);
    for k in 0..closure.len() {
        let mask = asked_by(closure.node(k as u16), atoms, &masks);
        masks.push(mask)?;
    }
    Ok(masks)
}

/// The mask of a node, by those of its parts.
fn asked_by(node: Node, atoms: &[Atom], masks: &NumList) -> u32
    requires few { length atoms.now ≤ 16 }
    requires parts { PartsBelow (length masks.now) (plain_node node) }
    ensures { IsAskedNode (map plain_atom atoms.now) masks.now (plain_node node) result }
{
    match node {
        Node::True | Node::False | Node::Next(_) | Node::WeakNext(_) => 0,
        Node::Lit { atom, .. } => mask_of(atoms, atom),
        Node::And(g, h) => either(masks, g, h),
        Node::Or(g, h) => either(masks, g, h),
        Node::Until(g, h) => either(masks, g, h),
        Node::Release(g, h) => either(masks, g, h),
    }
}

/// The bits of the masks of two members.
fn either(masks: &NumList, g: u16, h: u16) -> u32
    requires left { g < length masks.now }
    requires right { h < length masks.now }
    ensures { IsPart (slice_index masks.now g) result × IsPart (slice_index masks.now h) result }
{
    *masks.at(g as usize) | *masks.at(h as usize)
}

/// The mask of the atoms that some obligation of a residual asks.
pub fn asked_in<const W: usize>(residual: &[Duty<W>], masks: &NumList) -> u32
    requires width { W ≤ 16 }
    requires members { length masks.now ≤ 64 * W }
    ensures { IsAskedAll masks.now residual.now result }
{
    let mut mask = 0;
    for d in residual {
        mask |= asked_of(d, masks);
    }
    mask
}

/// The mask of the atoms that some obligation of a duty asks.
fn asked_of<const W: usize>(d: &Duty<W>, masks: &NumList) -> u32
    requires width { W ≤ 16 }
    requires members { length masks.now ≤ 64 * W }
    ensures { IsAskedBelow masks.now d.now (length masks.now) result }
{
    let mut mask = 0;
    for k in 0..masks.len() {
        if d.strong.has(k) || d.weak.has(k) {
            mask |= *masks.at(k);
        }
    }
    mask
}
