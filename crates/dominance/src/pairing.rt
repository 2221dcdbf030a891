//! Two runs of a monitor side by side.

ghost use Rattle.std.specs.Prelude.{◌≡◌, ℕ, ◌<◌, ◌≤◌, max, length, IfOk, OnOk, IsTrue, ◌↔◌};
ghost use Rattle.std.specs.Bool.{OnTrue, OnFalse};
ghost use Rattle.fin_monitor.specs.Machines.{states_of, codes};
ghost use Rattle.fin_monitor.specs.Seen.{machine_of};
ghost use Rattle.dominance.specs.Runs.{AreCodesOf, IsPairing, IsInside, IsFound, Stands, Differ, moved, next_node, start_node, longest, first_told, EndsIn};
ghost use Rattle.dominance.specs.LoneEnds.{AreLoneEnds, IsLoneEnd};
ghost use Rattle.dominance.specs.Seen.{AreEndsOf, pairing_of};
ghost use Rattle.dominance.specs.Trails.{node_at, AreLinked, AreReached, Grows, LeadsOn};

use crate::lone_ends::LoneEnds;
use crate::reached::{Node, Reached};
use fin_monitor::Monitor;
use hy_base::{List, M, Memory, Steps};
use hy_finite::Lengths;
use std::alloc::Global;
use std::sync::ledger::Ledger;

/// What two runs go by: a column of codes for each, which stand for a trace at one place, and for
/// each choice of what the other places say its code in each run.
#[derive(Clone, Copy)]
pub(crate) struct Pairing<'a> {
    pub monitor: &'a Monitor,
    pub lengths: Lengths,
    pub upper: &'a [u32],
    pub lower: &'a [u32],
    pub upper_codes: &'a [u32],
    pub lower_codes: &'a [u32],
}

/// What the upper and the lower run come to that go on alone, as far as it is kept.
#[derive(Drop)]
pub(crate) struct Ends {
    pub(crate) upper: LoneEnds,
    pub(crate) lower: LoneEnds,
}

impl Pairing<'_> {
    /// Choices, of any number, by which the upper run ends in a state that accepts and the lower
    /// one in a state that does not; none where there are no such choices.
    ///
    /// Each pair of states is followed once at each position of the longer column: in time at most
    /// the positions, times the pairs that are reached, times the choices. What a column leads to
    /// alone is found once for each state at a position.
    pub(crate) fn search<L: Ledger>(
        &self,
        alloc: Global,
        steps: &mut Steps<L>,
    ) -> M<Option<List<usize>>>
        requires { IsPairing (pairing_of self.now) }
        ensures { IfOk result (IsFound (pairing_of self.now)) }
    {
        let mut reached = Reached::new(alloc, self.start())?;
        let mut ends = self.ends(alloc)?;
        for k in 0..usize::MAX {
            let Some(node) = reached.node(k) else {
                return Ok(None);
            };
            if self.differ(node, &mut ends, steps) {
                return Ok(Some(reached.path(alloc, k)?));
            }
            self.follow(&mut reached, k, node, steps)?;
        }
        Err(Memory)
    }

    /// Where both runs begin.
    pub(crate) fn start(&self) -> Node
        ensures start { result ≡ start_node }
        ensures inside { IsInside (pairing_of self.now) result }
    {
        Node {
            at: 0,
            upper: self.monitor.start(),
            lower: self.monitor.start(),
        }
    }

    /// What the runs alone come to, with a place for each state where this is asked more than once:
    /// on the greatest length beside the shorter column.
    pub(crate) fn ends(&self, alloc: Global) -> M<Ends>
        ensures { IfOk result (AreEndsOf (pairing_of self.now)) }
    {
        let upper = LoneEnds::new(alloc, self.kept(self.upper, self.lower), self.upper.len())?;
        let lower = LoneEnds::new(alloc, self.kept(self.lower, self.upper), self.lower.len())?;
        Ok(Ends { upper, lower })
    }

    /// For how many states it is kept what a column alone leads to, beside the other one.
    fn kept(&self, column: &[u32], other: &[u32]) -> u32
        ensures { result ≤ states_of (machine_of self.now.monitor.now) }
    {
        match self.lengths {
            Lengths::Min => 0,
            Lengths::Pad => {
                if column.len() > other.len() {
                    self.monitor.states()
                } else {
                    0
                }
            }
        }
    }

    /// Adds the nodes that follow node `k`.
    pub(crate) fn follow<L: Ledger>(
        &self,
        reached: &mut Reached,
        k: usize,
        node: Node,
        steps: &mut Steps<L>,
    ) -> M<()>
        requires pairing { IsPairing (pairing_of self.now) }
        requires linked { AreLinked reached.old.nodes.keys reached.old.links }
        requires reached { AreReached (pairing_of self.now) reached.old.nodes.keys
            reached.old.links }
        requires there { k < length reached.old.nodes.keys }
        requires node { node ≡ node_at reached.old.nodes.keys k }
        ensures linked { OnOk result (AreLinked reached.new.nodes.keys reached.new.links) }
        ensures reached { OnOk result (AreReached (pairing_of self.now) reached.new.nodes.keys
            reached.new.links) }
        ensures grown { OnOk result (Grows reached.old.nodes.keys reached.new.nodes.keys) }
        ensures followed { OnOk result (LeadsOn (pairing_of self.now) reached.new.nodes.keys k
            (length self.now.upper_codes.now)) }
    {
        for choice in 0..self.upper_codes.len() {
            let next = self.next(node, choice, steps);
            reached.add(next, k, choice)?;
        }
        Ok(())
    }

    /// The node that follows by a choice.
    fn next<L: Ledger>(&self, node: Node, choice: usize, steps: &mut Steps<L>) -> Node
        requires pairing { IsPairing (pairing_of self.now) }
        requires node { IsInside (pairing_of self.now) node }
        requires choice { choice < length self.now.upper_codes.now }
        ensures next { result ≡ next_node (pairing_of self.now) node choice }
        ensures inside { IsInside (pairing_of self.now) result }
    {
        let upper = self.moved(
            self.upper,
            node.at,
            node.upper,
            self.upper_codes[choice],
            steps,
        );
        let lower = self.moved(
            self.lower,
            node.at,
            node.lower,
            self.lower_codes[choice],
            steps,
        );
        Node {
            at: (node.at + 1).min(self.longest()),
            upper,
            lower,
        }
    }

    /// The letters of the longer column.
    fn longest(&self) -> usize
        ensures { result ≡ longest (pairing_of self.now) }
    {
        self.upper.len().max(self.lower.len())
    }

    /// The state one position after state `q` at position `at`.
    fn moved<L: Ledger>(
        &self,
        column: &[u32],
        at: usize,
        q: u32,
        code: u32,
        steps: &mut Steps<L>,
    ) -> u32
        requires column { AreCodesOf (machine_of self.now.monitor.now) column.now }
        requires state { q < states_of (machine_of self.now.monitor.now) }
        requires code { code < codes (machine_of self.now.monitor.now) }
        ensures moved { result
            ≡ moved (machine_of self.now.monitor.now) self.now.lengths column.now at q code }
        ensures within { result < states_of (machine_of self.now.monitor.now) }
    {
        match column.get(at) {
            Some(part) => self.monitor.step(q, *part | code, steps),
            None => match self.lengths {
                Lengths::Min => q,
                Lengths::Pad => self.monitor.step(q, code, steps),
            },
        }
    }

    /// Whether from here, if the other places end, the upper run accepts and the lower one does
    /// not.
    fn differ<L: Ledger>(&self, node: Node, ends: &mut Ends, steps: &mut Steps<L>) -> bool
        requires pairing { IsPairing (pairing_of self.now) }
        requires node { IsInside (pairing_of self.now) node }
        requires ends { AreEndsOf (pairing_of self.now) ends.old }
        ensures ends { AreEndsOf (pairing_of self.now) ends.new }
        ensures differ { OnTrue result ((choice : ℕ → ℕ) (n : ℕ)
            → Stands (pairing_of self.now) choice n node
            → (first_told (pairing_of self.now) ≤ n) × Differ (pairing_of self.now) choice n) }
        ensures same { OnFalse result ((choice : ℕ → ℕ) (n : ℕ)
            → Stands (pairing_of self.now) choice n node
            → first_told (pairing_of self.now) ≤ n → ¬ Differ (pairing_of self.now) choice n) }
    {
        if !self.is_told(node.at) {
            return false;
        }
        let upper = self.at_end(self.upper, node.at, node.upper, &mut ends.upper, steps);
        let lower = self.at_end(self.lower, node.at, node.lower, &mut ends.lower, steps);
        self.monitor.accepts(upper) && !self.monitor.accepts(lower)
    }

    /// Whether the position is one from which tuples are told apart: under the rule pad a word that
    /// ends before the shorter column is as one that is filled up to it.
    pub(crate) fn is_told(&self, at: usize) -> bool
        ensures { IsTrue result ↔ (first_told (pairing_of self.now) ≤ at) }
    {
        match self.lengths {
            Lengths::Min => true,
            Lengths::Pad => at >= self.upper.len().min(self.lower.len()),
        }
    }

    /// The state at the end of the tuple, if the other places end at position `at`: under the rule
    /// pad the column goes on alone.
    pub(crate) fn at_end<L: Ledger>(
        &self,
        column: &[u32],
        at: usize,
        q: u32,
        ends: &mut LoneEnds,
        steps: &mut Steps<L>,
    ) -> u32
        requires column { AreCodesOf (machine_of self.now.monitor.now) column.now }
        requires state { q < states_of (machine_of self.now.monitor.now) }
        requires ends { AreLoneEnds (machine_of self.now.monitor.now) column.now ends.old.ends }
        ensures ends { AreLoneEnds (machine_of self.now.monitor.now) column.now ends.new.ends }
        ensures state { (code : ℕ → ℕ) (n most : ℕ) → length column.now ≤ most
            → EndsIn (machine_of self.now.monitor.now) self.now.lengths column.now code n most at q
            result }
        ensures within { result < states_of (machine_of self.now.monitor.now) }
    {
        match self.lengths {
            Lengths::Min => q,
            Lengths::Pad => self.lone_end(column, at, q, ends, steps),
        }
    }

    /// As `alone`, where what is found is kept.
    fn lone_end<L: Ledger>(
        &self,
        column: &[u32],
        at: usize,
        q: u32,
        ends: &mut LoneEnds,
        steps: &mut Steps<L>,
    ) -> u32
        requires column { AreCodesOf (machine_of self.now.monitor.now) column.now }
        requires state { q < states_of (machine_of self.now.monitor.now) }
        requires ends { AreLoneEnds (machine_of self.now.monitor.now) column.now ends.old.ends }
        ensures end { IsLoneEnd (machine_of self.now.monitor.now) column.now at q result }
        ensures ends { AreLoneEnds (machine_of self.now.monitor.now) column.now ends.new.ends }
    {
        if let Some(end) = ends.known(at, q) {
            return end;
        }
        let end = self.alone(column, at, q, steps);
        ends.keep(at, q, end);
        end
    }

    /// The state after the codes of the column from position `at` on.
    fn alone<L: Ledger>(&self, column: &[u32], at: usize, q: u32, steps: &mut Steps<L>) -> u32
        requires column { AreCodesOf (machine_of self.now.monitor.now) column.now }
        requires state { q < states_of (machine_of self.now.monitor.now) }
        ensures { IsLoneEnd (machine_of self.now.monitor.now) column.now at q result }
    {
        let mut q = q;
        for i in at..column.len() {
            q = self.monitor.step(q, column[i], steps);
        }
        q
    }
}
