//! Which variables of a step matter to a target: those on which the state behind the step, the
//! constraints and all steps before depend.

ghost use Rattle.std.specs.Prelude.{◌≡◌, ◌*◌, ◌≤◌, ◌^◌, length, IfOk};
ghost use Rattle.aig_net.specs.Nets.{variables};

use crate::constrained::{mark, mark_below};
use crate::variables::{first_and, first_latch};
use aig_net::Net;
use cnf_frames::Fact;
use hy_base::M;
use live_safe::SafeNet;
use std::alloc::Global;

/// Marks of variables on their way.
#[derive(Drop)]
struct Marking {
    marks: Vec<bool>,
    /// Marked variables that were not visited.
    open: Vec<usize>,
    /// By latch: the first that facts compare with it, or itself.
    partners: Vec<usize>,
}

/// By latch: the first that facts compare with it, or itself; in time linear in both.
fn partners(alloc: Global, latches: usize, facts: &[Fact]) -> M<Vec<usize>> {
    let mut partners = Vec::new(alloc);
    for latch in 0..latches {
        partners.push(latch)?;
    }
    for fact in facts {
        if let Fact::Same(a, b) | Fact::Differ(a, b) = fact
            && let Some(partner) = partners.get_mut((*a).max(*b) as usize)
        {
            *partner = (*partner).min((*a).min(*b) as usize);
        }
    }
    Ok(partners)
}

impl Marking {
    fn mark(&mut self, variable: usize) -> M<()> {
        if let Some(marked) = self.marks.get_mut(variable)
            && !*marked
        {
            *marked = true;
            self.open.push(variable)?;
        }
        Ok(())
    }

    /// Marks what a variable depends on in this step and in the one before.
    fn visit(&mut self, net: &Net, variable: usize) -> M<()> {
        let first = first_latch(net) as usize;
        let latches = net.latches().as_slice();
        let Some(latch) = variable.checked_sub(first) else {
            return Ok(());
        };
        if let Some(next) = latches.get(latch) {
            self.mark(*next as usize / 2)?;
            let partner = self.partners.get(latch).copied().unwrap_or(latch);
            self.mark(first.saturating_add(partner))?;
        } else if let Some(gate) = net.ands().as_slice().get(latch - latches.len()) {
            self.mark(gate.left as usize / 2)?;
            self.mark(gate.right as usize / 2)?;
        }
        Ok(())
    }

    /// Visits each marked variable.
    fn run(&mut self, net: &Net) -> M<()> {
        for _variable in 0..net.variables() {
            let Some(variable) = self.open.pop() else {
                return Ok(());
            };
            self.visit(net, variable)?;
        }
        Ok(())
    }
}

/// Of a step by variable: whether it matters.
#[derive(Drop)]
pub struct Cone {
    /// Before the step.
    pub before: Vec<bool>,
    /// After it.
    pub after: Vec<bool>,
}

/// For each variable whether the target depends on it in the same frame.
fn below(alloc: Global, safe: &SafeNet, target: &[u32]) -> M<Vec<bool>> {
    let net = &safe.net;
    let first = first_latch(net);
    let mut marks = vec![in alloc; false; net.variables() as usize]?;
    for literal in target {
        let latch = *literal / 2;
        if (latch as usize) < net.latches().len() {
            mark(marks.as_mut_slice(), 2 * (first + latch));
        } else {
            mark(marks.as_mut_slice(), safe.bad);
        }
    }
    mark_below(net, marks.as_mut_slice(), false);
    Ok(marks)
}

/// For each variable whether it matters before the step: constraints or a latch depend on it that
/// matters, or facts compare it with one; those latches matter that do so after the step.
fn above(alloc: Global, net: &Net, facts: &[Fact], after: &[bool]) -> M<Vec<bool>> {
    let mut marking = Marking {
        marks: vec![in alloc; false; net.variables() as usize]?,
        open: Vec::new(alloc),
        partners: partners(alloc, net.latches().len(), facts)?,
    };
    for literal in net.constraints().as_slice() {
        marking.mark(*literal as usize / 2)?;
    }
    for latch in first_latch(net)..first_and(net) {
        if after.get(latch as usize) == Some(&true) {
            marking.mark(latch as usize)?;
        }
    }
    marking.run(net)?;
    Ok(marking.marks)
}

impl Cone {
    /// What matters to a target, where states have all facts; in time linear in the net and the
    /// facts.
    pub(crate) fn new(alloc: Global, safe: &SafeNet, facts: &[Fact], target: &[u32]) -> M<Cone> {
        let net = &safe.net;
        let mut after = below(alloc, safe, target)?;
        let before = above(alloc, net, facts, after.as_slice())?;
        for latch in first_latch(net)..first_and(net) {
            if before.get(latch as usize) == Some(&true) {
                mark(after.as_mut_slice(), 2 * latch);
            }
        }
        Ok(Cone { before, after })
    }
}
