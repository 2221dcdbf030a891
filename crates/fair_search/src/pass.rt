//! One pass over the components of a graph, with a stack of its own.
//!
//! The open nodes stand on a stack in the order in which they were first seen. Each component of
//! open nodes is a run of the stack, and an edge back to an open node joins all components from
//! that node's on. A component ends once all members that its nodes lead to were looked at.

ghost use Rattle.std.specs.Prelude.{◌≡◌, ◌<◌, ◌≤◌, ◌+◌, ◌-◌, ◌*◌, ◌^◌, ◌++◌, ◌∷◌, ℕ, [], true, false, drop, length, slice_index, slice_set, List as Sequence, IfOk, OnOk, MatchOption};
ghost use Rattle.std.specs.Bool.{OnTrue, OnFalse};
ghost use Rattle.std.specs.List.{Contains};
ghost use Rattle.rank_check.specs.Graphs.{Shape, members_of, IsEdge};
ghost use Rattle.fair_search.specs.Passing.{edges, left, looks, IsUp, IsPass, IsLast, HasReached, IsFairPart, Goes, IsOver, IsFairAt, rank_at, opened_at};
ghost use Rattle.rank_check.specs.Ranking.{IsRanked};
ghost use Rattle.fair_search.specs.Verdicts.{Follows};

use crate::component::{Verdict, judge, settle};
use hy_base::{List, M, NumList, Steps};
use rank_check::{Graph, Ranks};
use std::alloc::Global;
use std::sync::ledger::Ledger;

/// Where a node is in the pass.
#[derive(Clone, Copy, Debug, PartialEq, Eq)]
pub(crate) enum Place {
    /// Not seen yet.
    New,
    /// At this place of the stack.
    Open(u32),
    /// In a finished component, which has this rank.
    Done(u32),
}

/// The rank of a node that is done.
fn rank_of(place: Place) -> Option<u32>
    ensures { result ≡ rank_at place }
{
    match place {
        Place::Done(rank) => Some(rank),
        _ => None,
    }
}

/// How far a pass has come.
#[derive(Drop)]
pub(crate) struct Pass {
    /// Of each node.
    pub(crate) places: List<Place>,
    /// For each node how many members of its next group were looked at.
    pub(crate) explored: NumList,
    /// For each node whether it was seen to lead to itself.
    pub(crate) loops: List<bool>,
    /// The open nodes, in the order in which they were seen.
    pub(crate) stack: NumList,
    /// Places of the stack, ascending, with all whose nodes have members left to look at.
    pub(crate) pending: NumList,
    /// Where the components of open nodes begin, ascending.
    pub(crate) starts: NumList,
    /// Of each finished component.
    pub(crate) reasons: List<Option<u32>>,
    /// How many members of the starting group were looked at.
    pub(crate) begun: u32,
}

/// What a step of the pass says.
#[derive(Clone, Copy, Debug, PartialEq, Eq)]
pub(crate) enum Next {
    /// There is more to do.
    More,
    /// All that can be reached was seen.
    Over,
    /// The last component, which begins at this place of the stack, is fair.
    Found(u32),
}

/// The last number of a list.
fn last(numbers: &NumList) -> Option<u32>
    ensures { MatchOption result (numbers.now ≡ [])
        (λ x. (front : Sequence ℕ) × (numbers.now ≡ front ++ x ∷ [])) }
{
    let len = numbers.len();
    if len == 0 {
        return None;
    }
    Some(*numbers.at(len - 1))
}

/// The last number of an ascending list, where it is at least `least`.
fn last_from(numbers: &NumList, least: u32) -> Option<u32>
    requires { IsUp numbers.now }
    ensures { MatchOption result ((x : ℕ) → Contains numbers.now x → x < least)
        (λ x. (least ≤ x) × ((front : Sequence ℕ) × (numbers.now ≡ front ++ x ∷ []))) }
{
    match last(numbers) {
        Some(number) if number >= least => Some(number),
        _ => None,
    }
}

/// The numbers of a list from a place on.
pub(crate) fn from_place(numbers: &NumList, place: u32) -> &[u32]
    requires { place ≤ length numbers.now }
    ensures { result.now ≡ drop place numbers.now }
{
    &numbers.as_slice()[place as usize..]
}

/// Keeps the numbers of an ascending list that are at most `most`.
fn keep_upto(numbers: &mut NumList, most: u32)
    requires { IsUp numbers.old }
    ensures rises { IsUp numbers.new }
    ensures was { (x : ℕ) → Contains numbers.new x → Contains numbers.old x × (x ≤ most) }
    ensures kept { (x : ℕ) → Contains numbers.old x → x ≤ most → Contains numbers.new x }
{
    let mut len = numbers.len();
    while len > 0 {
        if *numbers.at(len - 1) <= most {
            break;
        }
        len -= 1;
    }
    numbers.truncate(len);
}

impl Pass {
    /// No node seen yet, of as many as are said.
    pub(crate) fn new(alloc: Global, g: &Graph) -> M<Pass>
        ensures pass { IfOk result (IsPass g.now) }
        ensures none { IfOk result (λ p. looks p ≡ 0) }
    {
        let nodes = g.nodes() as usize;
        Ok(Pass {
            places: List::filled(alloc, Place::New, nodes)?,
            explored: List::filled(alloc, 0, nodes)?,
            loops: List::filled(alloc, false, nodes)?,
            stack: List::new(alloc),
            pending: List::new(alloc),
            starts: List::new(alloc),
            reasons: List::new(alloc),
            begun: 0,
        })
    }

    /// Puts a node that was not seen on the stack, as a component of its own.
    fn open(&mut self, node: u32) -> M<()>
        requires made { node < length self.old.places }
        requires few { length self.old.stack < 2 ^ 32 }
        ensures { OnOk result (self.new ≡ opened_at self.old node) }
    {
        let place = self.stack.len() as u32;
        self.places.set(node as usize, Place::Open(place));
        self.stack.push(node)?;
        self.pending.push(place)?;
        self.starts.push(place)
    }

    /// Takes up a node to which one of the last component leads.
    fn reach(&mut self, g: &Graph, place: u32, node: u32) -> M<()>
        requires pass { IsPass g.now self.old }
        requires last { IsLast self.old place }
        requires edge { IsEdge g.now (slice_index self.old.stack place) node }
        requires made { node < length g.now.nodes }
        ensures { OnOk result (HasReached g.now self.old self.new place node) }
    {
        g.whole();
        match *self.places.at(node as usize) {
            Place::New => self.open(node),
            Place::Open(back) => {
                keep_upto(&mut self.starts, back);
                Ok(())
            }
            Place::Done(_) => Ok(()),
        }
    }

    /// Looks at one more member of the starting group.
    fn begin<L: Ledger>(&mut self, g: &Graph, steps: &mut Steps<L>) -> M<()>
        requires pass { IsPass g.now self.old }
        requires idle { self.old.starts ≡ [] }
        requires more { self.old.begun < length (members_of g.now 0) }
        ensures goes { OnOk result (Goes g.now self.old self.new steps.old steps.new) }
        ensures step { steps.new ≡ steps.old + 1 }
    {
        g.whole();
        let node = g.member_at(0, self.begun, steps);
        self.begun += 1;
        match *self.places.at(node as usize) {
            Place::New => self.open(node),
            _ => Ok(()),
        }
    }

    /// Looks at one more member of what a node of the last component leads to, or leaves the node
    /// where no member is left.
    fn look<L: Ledger>(&mut self, g: &Graph, place: u32, steps: &mut Steps<L>) -> M<()>
        requires pass { IsPass g.now self.old }
        requires last { IsLast self.old place }
        requires ends { (front : Sequence ℕ) × (self.old.pending ≡ front ++ place ∷ []) }
        ensures goes { OnOk result (Goes g.now self.old self.new steps.old steps.new) }
        ensures most { steps.new + looks self.old ≤ steps.old + edges g.now }
    {
        g.whole();
        let node = *self.stack.at(place as usize);
        let group = g.group_of(node);
        let i = *self.explored.at(node as usize);
        if i == g.group_len(group) {
            self.pending.truncate(self.pending.len() - 1);
            return Ok(());
        }
        let next = g.member_at(group, i, steps);
        self.reach(g, place, next)?;
        self.explored.set(node as usize, i + 1);
        if next == node {
            self.loops.set(node as usize, true);
        }
        Ok(())
    }

    /// Ends the last component, or changes nothing where it is fair.
    fn close(&mut self, g: &Graph, start: u32) -> M<bool>
        requires pass { IsPass g.now self.old }
        requires ends { (front : Sequence ℕ) × (self.old.starts ≡ front ++ start ∷ []) }
        requires spent { (i : ℕ) → Contains self.old.pending i → i < start }
        ensures ended { IfOk result (λ ended. OnTrue ended
            (IsPass g.now self.new × (left g.now self.new < left g.now self.old) ×
            (looks self.new ≡ looks self.old))) }
        ensures fair { IfOk result (λ ended. OnFalse ended
            (IsFairPart g.now (drop start self.old.stack) × (self.new ≡ self.old))) }
    {
        g.whole();
        let nodes = from_place(&self.stack, start);
        let root = *self.stack.at(start as usize);
        let looped = *self.loops.at(root as usize);
        match judge(g, nodes, looped) {
            Verdict::Fair => Ok(false),
            Verdict::Ends(reason) => {
                let rank = self.reasons.len() as u32;
                settle(&mut self.places, nodes, rank);
                self.stack.truncate(start as usize);
                self.starts.truncate(self.starts.len() - 1);
                self.reasons.push(reason)?;
                Ok(true)
            }
        }
    }

    /// Makes one step of the pass, or changes nothing where it is over or a component is fair.
    #[tactic(auto, using(crate::proofs::Counting::looks_within, crate::proofs::Counting::looks_start))]
    fn step<L: Ledger>(&mut self, g: &Graph, steps: &mut Steps<L>) -> M<Next>
        requires { IsPass g.now self.old }
        ensures follows { IfOk result (Follows g.now self.old self.new steps.old steps.new) }
        ensures most { steps.new + looks self.old ≤ steps.old + edges g.now }
    {
        g.whole();
        let Some(start) = last(&self.starts) else {
            if self.begun == g.group_len(0) {
                return Ok(Next::Over);
            }
            self.begin(g, steps)?;
            return Ok(Next::More);
        };
        if let Some(place) = last_from(&self.pending, start) {
            self.look(g, place, steps)?;
            return Ok(Next::More);
        }
        if self.close(g, start)? {
            Ok(Next::More)
        } else {
            Ok(Next::Found(start))
        }
    }

    /// Runs the pass to its end, or to a component that is fair, and says where that one begins.
    /// Each member is looked at once at most.
    pub(crate) fn run<L: Ledger>(&mut self, g: &Graph, steps: &mut Steps<L>) -> M<Option<u32>>
        requires pass { IsPass g.now self.old }
        requires none { looks self.old ≡ 0 }
        ensures ends { IfOk result (λ found. MatchOption found (IsOver g.now self.new)
            (IsFairAt g.now self.new)) }
        ensures most { steps.new ≤ steps.old + edges g.now }
    {
        'steps: loop {
            match self.step(g, steps)? {
                Next::More => {}
                Next::Over => return Ok(None),
                Next::Found(start) => return Ok(Some(start)),
            }
        }
    }

    /// The ranks of a pass that is over.
    pub(crate) fn into_ranks(self, alloc: Global) -> M<Ranks>
        ensures { (g : Shape) → IsOver g self → IfOk result (IsRanked g) }
    {
        let mut ranks = List::new(alloc);
        for place in self.places.as_slice() {
            ranks.push(rank_of(*place))?;
        }
        Ok(Ranks {
            ranks,
            reasons: self.reasons,
        })
    }
}
