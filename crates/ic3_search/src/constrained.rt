//! Which latches decide, with the inputs, whether the constraints of a net are true.

use crate::variables::{first_and, first_latch};
use aig_net::Net;
use cnf_frames::Fact;
use hy_base::M;
use std::alloc::Global;

/// Marks the variable of a literal.
pub(crate) fn mark(marks: &mut [bool], literal: u32) {
    if let Some(marked) = marks.get_mut(literal as usize / 2) {
        *marked = true;
    }
}

/// The same of a literal that is true where its variable is 1; of others too where not `ones`.
pub(crate) fn mark_any(marks: &mut [bool], literal: u32, ones: bool) {
    if !ones || literal % 2 == 0 {
        mark(marks, literal);
    }
}

/// Marks what the marked ands depend on in the same frame, or, where `ones`, what they make 1; in
/// time linear in the net.
pub(crate) fn mark_below(net: &Net, marks: &mut [bool], ones: bool) {
    let first = first_and(net) as usize;
    let ands = net.ands().as_slice();
    for back in 0..ands.len() {
        let i = ands.len() - 1 - back;
        if marks.get(first + i) == Some(&true) {
            let gate = ands[i];
            mark_any(marks, gate.left, ones);
            mark_any(marks, gate.right, ones);
        }
    }
}

/// For each variable whether a constraint depends on it, in time linear in the net.
fn constrained_variables(alloc: Global, net: &Net) -> M<Vec<bool>> {
    let mut marks = vec![in alloc; false; net.variables() as usize]?;
    for literal in net.constraints().as_slice() {
        mark(marks.as_mut_slice(), *literal);
    }
    mark_below(net, marks.as_mut_slice(), false);
    Ok(marks)
}

/// Marks the earlier of two latches by which the later one is known, where that is marked.
fn mark_earlier(marks: &mut [bool], fact: &Fact) {
    if let Fact::Same(a, b) | Fact::Differ(a, b) = fact
        && marks.get((*a).max(*b) as usize) == Some(&true)
        && let Some(earlier) = marks.get_mut((*a).min(*b) as usize)
    {
        *earlier = true;
    }
}

/// For each latch whether a constraint depends on it, or on a later one that facts say to be equal
/// or to differ. In time linear in the net and the facts.
pub(crate) fn constrained_latches(alloc: Global, net: &Net, facts: &[Fact]) -> M<Vec<bool>> {
    let variables = constrained_variables(alloc, net)?;
    let mut marks = Vec::new(alloc);
    for latch in first_latch(net)..first_and(net) {
        marks.push(variables.get(latch as usize) == Some(&true))?;
    }
    for fact in facts {
        mark_earlier(marks.as_mut_slice(), fact);
    }
    Ok(marks)
}
