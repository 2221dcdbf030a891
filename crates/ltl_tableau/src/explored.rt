//! The reachable branches, found set by set.

ghost use Rattle.std.specs.Prelude.{◌≡◌, ◌≤◌, ◌<◌, ◌*◌, ◌+◌, ◌-◌, ◌^◌, [], ◌∷◌, List as Sequence, length, IfOk, OnOk, IsErrOf};
ghost use Rattle.ltl_closure.specs.Nodes.{Node};
ghost use Rattle.ltl_tableau.specs.Branchers.{IsBrancher};
ghost use Rattle.ltl_tableau.specs.Reached.{HasMore, PutsBranch, PutsSet, Explores, AreGroups, Grows, IsReachable, branch_at, set_at};

use crate::branch::Branch;
use crate::brancher::Brancher;
use crate::tableau_error::TableauError;
use hy_base::{List, M, Memory, NumList};
use indexmap::IndexSet;
use ltl_closure::{Closure, Obl};
use std::alloc::Global;

/// Sets of members, the branches found so far, each once, and for each set whose branches were
/// found the numbers of these.
#[derive(Drop)]
pub struct Explored<const W: usize> {
    pub sets: IndexSet<Obl<W>>,
    pub branches: IndexSet<Branch<W>>,
    pub groups: List<NumList>,
}

impl<const W: usize> Explored<W> {
    /// Nothing but one set.
    pub fn new(alloc: Global, roots: Obl<W>) -> M<Explored<W>>
        ensures sets { IfOk result (λ e. e.sets.keys ≡ roots.entry ∷ []) }
        ensures branches { IfOk result (λ e. e.branches.keys ≡ []) }
        ensures groups { IfOk result (λ e. e.groups ≡ []) }
    {
        let mut sets = IndexSet::new(alloc);
        sets.insert(roots)?;
        Ok(Explored {
            sets,
            branches: IndexSet::new(alloc),
            groups: List::new(alloc),
        })
    }

    /// Adds a branch where it is new, and with it the set that it leaves for later, and answers its
    /// number. `States` comes where there are more than `states` branches.
    pub fn add(&mut self, branch: Branch<W>, states: u32) -> Result<u32, TableauError>
        requires { states < 2 ^ 32 - 1 }
        ensures groups { self.new.groups ≡ self.old.groups }
        ensures grows { OnOk result (Grows self.old.sets.keys self.old.branches.keys
            self.new.sets.keys self.new.branches.keys) }
        ensures number { IfOk result (λ n. n < length self.new.branches.keys) }
        ensures at { IfOk result (λ n. branch_at self.new.branches.keys n ≡ branch.entry) }
        ensures few { OnOk result (length self.new.branches.keys ≤ states) }
        ensures explores { OnOk result ((nodes : Sequence Node)
            → Explores nodes self.old.sets.keys self.old.branches.keys
            → IsReachable nodes (set_at self.old.sets.keys 0) branch.entry
            → Explores nodes self.new.sets.keys self.new.branches.keys) }
        ensures states { IsErrOf result TableauError.States → (nodes : Sequence Node)
            → Explores nodes self.old.sets.keys self.old.branches.keys
            → IsReachable nodes (set_at self.old.sets.keys 0) branch.entry
            → HasMore nodes (set_at self.old.sets.keys 0) states }
    {
        let set = branch.next;
        let number = insert_branch(&mut self.branches, branch)?;
        if self.branches.len() > states as usize {
            return Err(TableauError::States);
        }
        insert_set(&mut self.sets, set)?;
        Ok(number as u32)
    }

    /// Finds the branches of the first set whose branches were not found yet. `States` comes where
    /// there are more than `states` branches.
    pub fn explore(
        &mut self,
        alloc: Global,
        c: &Closure,
        brancher: &Brancher,
        states: u32,
    ) -> Result<(), TableauError>
        requires width { W ≤ 16 }
        requires members { length c.now.nodes ≤ 64 * W }
        requires states { states < 2 ^ 32 - 1 }
        requires brancher { IsBrancher c.now.nodes brancher.now }
        requires more { length self.old.groups < length self.old.sets.keys }
        requires explores { Explores c.now.nodes self.old.sets.keys self.old.branches.keys }
        requires groups { AreGroups c.now.nodes states self.old.sets.keys self.old.branches.keys
            self.old.groups }
        requires few { length self.old.branches.keys ≤ states }
        ensures explores { OnOk result (Explores c.now.nodes self.new.sets.keys
            self.new.branches.keys) }
        ensures groups { OnOk result (AreGroups c.now.nodes states self.new.sets.keys
            self.new.branches.keys self.new.groups) }
        ensures one { OnOk result (length self.new.groups ≡ length self.old.groups + 1) }
        ensures few { OnOk result (length self.new.branches.keys ≤ states) }
        ensures grows { OnOk result (Grows self.old.sets.keys self.old.branches.keys
            self.new.sets.keys self.new.branches.keys) }
        ensures states { IsErrOf result TableauError.States
            → HasMore c.now.nodes (set_at self.old.sets.keys 0) states }
    {
        let set = self.sets.as_slice()[self.groups.len()];
        let Some(found) = brancher.of(alloc, c, &set, states as usize)? else {
            return Err(TableauError::States);
        };
        let mut members = NumList::new(alloc);
        for branch in found.as_slice() {
            members.push(self.add(*branch, states)?)?;
        }
        self.groups.push(members)?;
        Ok(())
    }
}

/// Puts a branch last where it is new, and answers its place.
fn insert_branch<const W: usize>(branches: &mut IndexSet<Branch<W>>, branch: Branch<W>) -> M<usize>
    ensures { IfOk result (PutsBranch branches.old.keys branch.entry branches.new.keys) }
{
    let (number, _) = branches.insert_full(branch)?;
    Ok(number)
}

/// Puts a set last where it is new.
fn insert_set<const W: usize>(sets: &mut IndexSet<Obl<W>>, set: Obl<W>) -> M<()>
    ensures { OnOk result (PutsSet sets.old.keys set.entry sets.new.keys) }
{
    sets.insert(set)?;
    Ok(())
}
