//! Components: ands of which each depends on each other one. The search promises nothing of what it
//! answers, which is checked where it is used.

ghost use Rattle.std.specs.Prelude.{◌≡◌, slice_index};
ghost use Rattle.aig_order.specs.Takings.{AreSetUp};

use crate::gate::Gate;
use crate::taking::{Definers, definer};
use hy_base::{List, M};
use std::alloc::Global;

/// An and that is being visited, and how many of its right sides have been.
#[derive(Clone, Copy)]
struct Visit {
    gate: u32,
    sides: u8,
}

/// A search of the components, those first that depend on no other.
#[derive(Drop)]
struct Search {
    /// For each and when it was met, counted from 1; 0 where it was not.
    met: List<u32>,
    /// For each and when the earliest was met that is known to be of its component.
    low: List<u32>,
    /// For each and the number of its component, from 1 on; 0 where that is not known yet.
    ranks: List<u32>,
    visits: Vec<Visit>,
    /// The ands that were met and are of no known component, in their order.
    open: List<u32>,
    /// How many ands were met.
    count: u32,
    /// How many components are known.
    components: u32,
}

/// For each and the number of its component, where no and depends on one of a higher number. In
/// time linear in the ands, with a flat stack.
pub fn components(alloc: Global, gates: &[Gate], definers: &Definers) -> M<List<u32>>
    requires { AreSetUp gates.now definers.now }
{
    let mut search = Search {
        met: List::filled(alloc, 0, gates.len())?,
        low: List::filled(alloc, 0, gates.len())?,
        ranks: List::filled(alloc, 0, gates.len())?,
        visits: Vec::new(alloc),
        open: List::new(alloc),
        count: 0,
        components: 0,
    };
    for k in 0..gates.len() {
        if number(&search.met, k as u32) == 0 {
            search.meet(k as u32)?;
            search.run(gates, definers)?;
        }
    }
    Ok(search.ranks)
}

/// The number at place `k`, 0 where there is none.
pub fn number(numbers: &List<u32>, k: u32) -> u32
    ensures { result ≡ slice_index numbers.now k }
{
    if (k as usize) < numbers.len() {
        *numbers.at(k as usize)
    } else {
        0
    }
}

fn put(numbers: &mut List<u32>, k: u32, x: u32) {
    if (k as usize) < numbers.len() {
        numbers.set(k as usize, x);
    }
}

impl Search {
    /// Begins to visit an and that was not met.
    fn meet(&mut self, k: u32) -> M<()> {
        self.count = self.count.saturating_add(1);
        put(&mut self.met, k, self.count);
        put(&mut self.low, k, self.count);
        self.open.push(k)?;
        self.visits.push(Visit { gate: k, sides: 0 })?;
        Ok(())
    }

    /// Visits until no visit is left: three steps for each and.
    fn run(&mut self, gates: &[Gate], definers: &Definers) -> M<()>
        requires { AreSetUp gates.now definers.now }
    {
        for _ in 0..u64::MAX {
            let Some(visit) = self.visits.pop() else {
                return Ok(());
            };
            self.go_on(gates, definers, visit)?;
        }
        Ok(())
    }

    /// Goes on with a visit: its next right side, or its end.
    fn go_on(&mut self, gates: &[Gate], definers: &Definers, visit: Visit) -> M<()>
        requires { AreSetUp gates.now definers.now }
    {
        let Some(gate) = gates.get(visit.gate as usize) else {
            return Ok(());
        };
        match visit.sides {
            0 => self.look(visit, definer(definers, gate.left)),
            1 => self.look(visit, definer(definers, gate.right)),
            _ => {
                self.leave(visit.gate);
                Ok(())
            }
        }
    }

    /// Looks at the and that a right side uses, if it uses one.
    fn look(&mut self, visit: Visit, used: Option<u32>) -> M<()> {
        self.visits.push(Visit {
            gate: visit.gate,
            sides: visit.sides.saturating_add(1),
        })?;
        match used {
            Some(j) => self.visit(visit.gate, j),
            None => Ok(()),
        }
    }

    /// Visits the and that `user` uses; one that is being visited is of its component.
    fn visit(&mut self, user: u32, j: u32) -> M<()> {
        let met = number(&self.met, j);
        if met == 0 {
            return self.meet(j);
        }
        if number(&self.ranks, j) == 0 {
            self.lower(user, met);
        }
        Ok(())
    }

    /// Ends a visit: the first and of a component closes it, any other tells the one before it.
    fn leave(&mut self, k: u32) {
        let low = number(&self.low, k);
        if low == number(&self.met, k) {
            self.components = self.components.saturating_add(1);
            self.close(k);
        }
        if let Some(visit) = self.visits.last() {
            let before = visit.gate;
            self.lower(before, low);
        }
    }

    fn lower(&mut self, k: u32, low: u32) {
        let least = number(&self.low, k).min(low);
        put(&mut self.low, k, least);
    }

    /// The ands that were met from `k` on are a component.
    fn close(&mut self, k: u32) {
        while let Some(j) = self.open.pop() {
            put(&mut self.ranks, j, self.components);
            if j == k {
                return;
            }
        }
    }
}
