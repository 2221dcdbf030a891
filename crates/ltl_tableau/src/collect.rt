//! The branches of a set.

ghost use Rattle.std.specs.Prelude.{◌≡◌, ℕ, suc, ◌≤◌, ◌<◌, ◌*◌, ◌++◌, [], List as Sequence, false, length, OnOk, IfOk};
ghost use Rattle.std.specs.Bool.{OnTrue};
ghost use Rattle.std.specs.FinSet.{empty, contains};
ghost use Rattle.ltl_closure.specs.Nodes.{Node as PlainNode};
ghost use Rattle.ltl_tableau.specs.Branches.{branches, branches_below};
ghost use Rattle.ltl_tableau.specs.Ways.{AreDead, AreOpposites, AreSkips, Within, ways};
ghost use Rattle.ltl_tableau.specs.Collected.{Collects, HasDone};
ghost use Rattle.ltl_tableau.specs.Drafts.{Begins, IsReady, SideBelow, held_by, side_ways, some_ways};

use crate::branch::{Branch, BranchList};
use crate::links::Links;
use crate::settle::{Draft, Work};
use crate::skips::Skips;
use crate::steps::{Side, Step};
use hy_base::{List, M};
use indexmap::IndexSet;
use ltl_closure::{Closure, Obl};
use std::alloc::Global;

/// The branches of a set of members, each once, at its first place.
///
/// Members are taken from the greatest down, and each disjunction, until and release is a choice
/// between two ways, of which those that come to nothing are mostly not begun. So there are about as
/// many choices as branches; but there may be as many as two to the number of these members where
/// choices come to the same, or to nothing, only by later choices. A choice takes time in what
/// follows from it, and in the members that have to be done before the next.
pub fn branches<const W: usize>(alloc: Global, c: &Closure, s: &Obl<W>) -> M<BranchList<W>>
    requires width { W ≤ 16 }
    requires members { length c.now.nodes ≤ 64 * W }
    ensures { IfOk result (λ list. list ≡ branches c.now.nodes s.now) }
{
    let links = Links::new(alloc, c)?;
    let found = collect(alloc, c, &links, s, usize::MAX)?;
    let mut list = List::new(alloc);
    for branch in found.as_slice() {
        list.push(*branch)?;
    }
    Ok(list)
}

/// The branches of a set, but no more once there are more than `most`.
pub fn collect<const W: usize>(
    alloc: Global,
    c: &Closure,
    links: &Links,
    s: &Obl<W>,
    most: usize,
) -> M<IndexSet<Branch<W>>>
    requires width { W ≤ 16 }
    requires members { length c.now.nodes ≤ 64 * W }
    requires links { AreOpposites c.now.nodes links.now.opposites }
    ensures { IfOk result (λ found. Collects most [] (branches_below c.now.nodes
        (length c.now.nodes) s.now empty empty) found.keys) }
{
    let mut found = Found {
        branches: IndexSet::new(alloc),
        done: IndexSet::new(alloc),
    };
    let mut agenda = all_members(alloc, c)?;
    let start = begin(c, links, s, &mut agenda)?;
    let skips = Skips::new(alloc, c, links, held_by(&start))?;
    expand(c, links, &skips, start, most, &mut agenda, &mut found)?;
    let Found { branches, done: _ } = found;
    Ok(branches)
}

/// What follows from a set, where a branch may come from it.
fn begin<const W: usize>(
    c: &Closure,
    links: &Links,
    s: &Obl<W>,
    agenda: &mut List<u16>,
) -> M<Option<Draft<W>>>
    requires width { W ≤ 16 }
    requires members { length c.now.nodes ≤ 64 * W }
    requires links { AreOpposites c.now.nodes links.now.opposites }
    ensures { IfOk result (Begins c.now.nodes s.now) }
{
    let _members = c.len();
    let mut draft = whole(c, s);
    if draft.settle(c, links, agenda)? {
        Ok(Some(draft))
    } else {
        Ok(None)
    }
}

/// What a draft holds, where there is one.
fn held_by<const W: usize>(draft: &Option<Draft<W>>) -> Obl<W>
    requires { W ≤ 16 }
    ensures { result ≡ held_by draft.now }
{
    match draft {
        Some(draft) => draft.work.held,
        None => Obl::empty(),
    }
}

/// The draft of a set of which nothing is known.
fn whole<const W: usize>(c: &Closure, s: &Obl<W>) -> Draft<W>
    requires width { W ≤ 16 }
    requires members { length c.now.nodes ≤ 64 * W }
    ensures below { result.work.below ≡ length c.now.nodes }
    ensures next { result.work.next ≡ empty }
    ensures held { (k : ℕ) → k < length c.now.nodes
        → contains result.work.held k ≡ contains s.now k }
    ensures none { (k : ℕ) → length c.now.nodes ≤ k → contains result.work.held k ≡ false }
    ensures dead { AreDead c.now.nodes result.work.held result.dead }
{
    Draft {
        work: Work {
            below: c.len() as u16,
            held: members_of(c, s),
            next: Obl::empty(),
        },
        dead: Obl::empty(),
    }
}

/// The numbers of a closure's members, from the greatest down.
fn all_members(alloc: Global, c: &Closure) -> M<List<u16>> {
    let mut list = List::new(alloc);
    let mut k = c.len() as u16;
    while k > 0 {
        k -= 1;
        list.push(k)?;
    }
    Ok(list)
}

/// The numbers of a set that are those of members.
fn members_of<const W: usize>(c: &Closure, s: &Obl<W>) -> Obl<W>
    requires width { W ≤ 16 }
    requires members { length c.now.nodes ≤ 64 * W }
    ensures within { (k : ℕ) → k < length c.now.nodes → contains result k ≡ contains s.now k }
    ensures none { (k : ℕ) → length c.now.nodes ≤ k → contains result k ≡ false }
{
    let mut members = Obl::empty();
    for k in 0..c.len() {
        if s.has(k) {
            members = members.with(k);
        }
    }
    members
}

/// Branches that were found, each once, and choices whose branches are all among them.
#[derive(Drop)]
struct Found<const W: usize> {
    branches: IndexSet<Branch<W>>,
    done: IndexSet<Work<W>>,
}

/// Adds the branches that the draft may become, but no more once there are more than `most`. Calls
/// stand in one another at most twice as often as the closure has members.
#[cycle(expand)]
fn expand<const W: usize>(
    c: &Closure,
    links: &Links,
    skips: &Skips<W>,
    start: Option<Draft<W>>,
    most: usize,
    agenda: &mut List<u16>,
    found: &mut Found<W>,
) -> M<()>
    requires width { W ≤ 16 }
    requires members { length c.now.nodes ≤ 64 * W }
    requires links { AreOpposites c.now.nodes links.now.opposites }
    requires skips { AreSkips c.now.nodes skips.now.held skips.now.to }
    requires ready { IsReady c.now.nodes (length c.now.nodes) skips.now.held start }
    requires done { HasDone c.now.nodes most found.old.branches.keys found.old.done.keys }
    ensures collects { OnOk result (Collects most found.old.branches.keys
        (some_ways c.now.nodes start.entry) found.new.branches.keys) }
    ensures done { OnOk result (HasDone c.now.nodes most found.new.branches.keys
        found.new.done.keys) }
{
    let Some(mut draft) = start else {
        return Ok(());
    };
    match draft.run(c, links, skips) {
        Step::Ends => Ok(()),
        Step::Splits(first, second) => {
            split(
                c, links, skips, &draft, &first, &second, most, agenda, found,
            )?;
            Ok(())
        }
        Step::Goes => {
            found.branches.insert(Branch {
                now: draft.work.held,
                next: draft.work.next,
            })?;
            Ok(())
        }
    }
}

/// Adds the branches of both ways to choose.
#[cycle(expand)]
fn split<const W: usize>(
    c: &Closure,
    links: &Links,
    skips: &Skips<W>,
    draft: &Draft<W>,
    first: &Side,
    second: &Side,
    most: usize,
    agenda: &mut List<u16>,
    found: &mut Found<W>,
) -> M<()>
    requires width { W ≤ 16 }
    requires members { length c.now.nodes ≤ 64 * W }
    requires links { AreOpposites c.now.nodes links.now.opposites }
    requires skips { AreSkips c.now.nodes skips.now.held skips.now.to }
    requires base { Within skips.now.held draft.now.work.held }
    requires place { draft.now.work.below < length c.now.nodes }
    requires first_below { SideBelow draft.now.work.below first.now }
    requires second_below { SideBelow draft.now.work.below second.now }
    requires dead { AreDead c.now.nodes draft.now.work.held draft.now.dead }
    requires both { ways c.now.nodes (suc draft.now.work.below) draft.now.work.held
        draft.now.work.next ≡ side_ways c.now.nodes draft.now.work first.now
        ++ side_ways c.now.nodes draft.now.work second.now }
    requires done { HasDone c.now.nodes most found.old.branches.keys found.old.done.keys }
    ensures collects { OnOk result (Collects most found.old.branches.keys (ways c.now.nodes
        (suc draft.now.work.below) draft.now.work.held draft.now.work.next)
        found.new.branches.keys) }
    ensures done { OnOk result (HasDone c.now.nodes most found.new.branches.keys
        found.new.done.keys) }
{
    if found.done.contains(&draft.work) {
        return Ok(());
    }
    let one = draft.chosen(c, links, skips, first, agenda)?;
    let other = draft.chosen(c, links, skips, second, agenda)?;
    if !is_same(&one, &other) {
        expand(c, links, skips, one, most, agenda, found)?;
    }
    if found.branches.len() > most {
        return Ok(());
    }
    expand(c, links, skips, other, most, agenda, found)?;
    found.done.insert(draft.work)?;
    Ok(())
}

/// Whether two drafts are there and are the same work.
fn is_same<const W: usize>(one: &Option<Draft<W>>, other: &Option<Draft<W>>) -> bool
    requires { W ≤ 16 }
    ensures { OnTrue result ((nodes : Sequence PlainNode)
        → some_ways nodes one.now ≡ some_ways nodes other.now) }
{
    match (one, other) {
        (Some(one), Some(other)) => one.work == other.work,
        _ => false,
    }
}
