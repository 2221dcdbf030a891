//! What the members of a closure leave after a joint letter, and what residuals do by it.

ghost use Rattle.std.specs.Prelude.{◌≡◌, ◌≤◌, ◌<◌, ◌*◌, ◌∷◌, ◌++◌, [], cond, length, map, IfOk, OnOk, List as Sequence};
ghost use Rattle.hy_formula.specs.Atoms.{plain_atom};
ghost use Rattle.fin_monitor.specs.Duties.{Duty as Duties, no_duty, joined, AreAlike};
ghost use Rattle.fin_monitor.specs.Lefts.{kept_lists, IsFamily, IsFamilyOf, IsLeft, AreLefts, AreMasks, IsStepOf, IsPartialStep, IsJoinedWith, IsUnionsBelow};

use crate::atoms::holds;
use crate::duty::Duty;
use crate::families::{Family, add_all, add_joined, add_with, single};
use hy_base::{List, M, NumList};
use hy_formula::Atom;
use ltl_closure::{Closure, Node, Obl};
use std::alloc::Global;

/// A closure and the atoms of its body, by which its members are judged.
#[derive(Clone, Copy)]
pub struct Judge<'a> {
    pub closure: &'a Closure,
    pub atoms: &'a [Atom],
}

/// What each member leaves after the joint letter of a code.
#[derive(Drop)]
pub struct Lefts<const W: usize> {
    pub code: u32,
    pub lists: List<Family<W>>,
}

impl<const W: usize> Lefts<W> {
    /// What the members leave after the joint letter without a name.
    pub fn new(alloc: Global, judge: &Judge) -> M<Lefts<W>>
        requires width { W ≤ 16 }
        requires members { length judge.now.closure.now.nodes ≤ 64 * W }
        requires few { length judge.now.atoms.now ≤ 16 }
        ensures long { IfOk result (λ l. length l.lists ≡ length judge.now.closure.now.nodes) }
        ensures lefts { IfOk result (λ l. AreLefts judge.now.closure.now.nodes
            (map plain_atom judge.now.atoms.now) l.code (kept_lists l.lists) (length l.lists)) }
    {
        let mut lists = List::new(alloc);
        for k in 0..judge.closure.len() {
            let mut list = Vec::new(alloc);
            put_left(judge, &lists, 0, k as u16, &mut list)?;
            lists.push(list)?;
        }
        Ok(Lefts { code: 0, lists })
    }

    /// Turns to another code. What a member leaves is found again only where it asks a bit that
    /// changes, in the memory of the list that was replaced before.
    pub fn turn(&mut self, alloc: Global, judge: &Judge, masks: &NumList, code: u32) -> M<()>
        requires width { W ≤ 16 }
        requires members { length judge.now.closure.now.nodes ≤ 64 * W }
        requires few { length judge.now.atoms.now ≤ 16 }
        requires masks { AreMasks judge.now.closure.now.nodes
            (map plain_atom judge.now.atoms.now) masks.now }
        requires long { length self.old.lists ≡ length judge.now.closure.now.nodes }
        requires lefts { AreLefts judge.now.closure.now.nodes (map plain_atom judge.now.atoms.now)
            self.old.code (kept_lists self.old.lists) (length self.old.lists) }
        ensures long { length self.new.lists ≡ length judge.now.closure.now.nodes }
        ensures code { OnOk result (self.new.code ≡ code) }
        ensures lefts { OnOk result (AreLefts judge.now.closure.now.nodes
            (map plain_atom judge.now.atoms.now) code (kept_lists self.new.lists)
            (length self.new.lists)) }
    {
        if self.code == code {
            return Ok(());
        }
        let mut list = Vec::new(alloc);
        for k in 0..masks.len() {
            let mask = *masks.at(k);
            if code & mask != self.code & mask {
                put_left(judge, &self.lists, code, k as u16, &mut list)?;
                list = self.lists.replace(k, list);
            }
        }
        self.code = code;
        Ok(())
    }

    /// What is left of a residual. Duties one after another with the same weak obligations, as
    /// many have, share what these leave, and are joined with it at once.
    pub fn step(&self, alloc: Global, residual: &[Duty<W>]) -> M<Family<W>>
        requires width { W ≤ 16 }
        requires members { length self.now.lists ≤ 64 * W }
        ensures family { IfOk result (λ next. IsFamily next.items) }
        ensures alike { IfOk result (λ next. IsStepOf (kept_lists self.now.lists)
            self.now.code residual.now next.items) }
    {
        let mut next = Vec::new(alloc);
        let mut strong = Vec::new(alloc);
        let mut weak = Obl::empty();
        for d in residual {
            self.turn_to(alloc, &mut next, &mut strong, &mut weak, &d.weak)?;
            let left = self.unions(alloc, &d.strong)?;
            add_all(&mut strong, &left)?;
        }
        self.close(alloc, &mut next, &mut strong, &weak)?;
        Ok(next)
    }

    /// Goes on to duties with other weak obligations, unless they are the same.
    fn turn_to(
        &self,
        alloc: Global,
        next: &mut Family<W>,
        strong: &mut Family<W>,
        weak: &mut Obl<W>,
        other: &Obl<W>,
    ) -> M<()>
        requires width { W ≤ 16 }
        requires members { length self.now.lists ≤ 64 * W }
        requires families { IsFamily next.old.items × IsFamily strong.old.items }
        ensures families { OnOk result (IsFamily next.new.items × IsFamily strong.new.items) }
        ensures weak { OnOk result (weak.new ≡ other.now) }
        ensures partial { OnOk result ((residual : Sequence Duties) → IsPartialStep
            (kept_lists self.now.lists) self.now.code residual next.old.items strong.old.items
            weak.old → IsPartialStep (kept_lists self.now.lists) self.now.code residual
            next.new.items strong.new.items other.now) }
    {
        if *weak == *other {
            return Ok(());
        }
        self.close(alloc, next, strong, weak)?;
        *weak = *other;
        Ok(())
    }

    /// Adds each union of a duty of `strong` and one that weak obligations leave, and leaves none
    /// in `strong`.
    fn close(
        &self,
        alloc: Global,
        next: &mut Family<W>,
        strong: &mut Family<W>,
        weak: &Obl<W>,
    ) -> M<()>
        requires width { W ≤ 16 }
        requires members { length self.now.lists ≤ 64 * W }
        requires family { IsFamily next.old.items }
        ensures family { IsFamily next.new.items }
        ensures none { OnOk result (strong.new.items ≡ []) }
        ensures joined { OnOk result (IsJoinedWith (kept_lists self.now.lists) self.now.code
            next.old.items strong.old.items weak.now next.new.items) }
    {
        let left = self.unions(alloc, weak)?;
        add_joined(next, strong, &left)?;
        strong.clear();
        Ok(())
    }

    /// The unions that take one duty that each member of a set leaves.
    fn unions(&self, alloc: Global, set: &Obl<W>) -> M<Family<W>>
        requires width { W ≤ 16 }
        requires members { length self.now.lists ≤ 64 * W }
        ensures { IfOk result (λ made. IsUnionsBelow (kept_lists self.now.lists) self.now.code
            set.now (length self.now.lists) made.items) }
    {
        let mut made = single(alloc, Duty::none())?;
        let mut from = 0;
        while let Some(k) = set.next_from(from) {
            // Only numbers below are those of members.
            if k >= self.lists.len() {
                return Ok(made);
            }
            join(alloc, &mut made, self.lists.at(k))?;
            from = k + 1;
        }
        Ok(made)
    }
}

/// Makes each union of a duty of the list and one of `made`, in place where both are one duty.
fn join<const W: usize>(alloc: Global, made: &mut Family<W>, list: &[Duty<W>]) -> M<()>
    requires { W ≤ 16 }
    ensures { OnOk result (AreAlike made.new.items (joined list.now made.old.items)) }
{
    if list.len() == 1 && made.len() == 1 {
        made[0] = list[0].both(&made[0]);
        return Ok(());
    }
    let mut more = Vec::new(alloc);
    add_joined(&mut more, list, made)?;
    *made = more;
    Ok(())
}

/// Puts what member `k` leaves in place of another list, by what those before it leave.
fn put_left<const W: usize>(
    judge: &Judge,
    lists: &List<Family<W>>,
    code: u32,
    k: u16,
    made: &mut Family<W>,
) -> M<()>
    requires width { W ≤ 16 }
    requires members { length judge.now.closure.now.nodes ≤ 64 * W }
    requires few { length judge.now.atoms.now ≤ 16 }
    requires there { k < length judge.now.closure.now.nodes }
    requires long { k ≤ length lists.now }
    requires lefts { AreLefts judge.now.closure.now.nodes (map plain_atom judge.now.atoms.now) code
        (kept_lists lists.now) k }
    ensures { OnOk result (IsLeft judge.now.closure.now.nodes
        (map plain_atom judge.now.atoms.now) code k made.new.items) }
{
    made.clear();
    let at = usize::from(k);
    match judge.closure.node(k) {
        Node::True => literal(made, true),
        Node::False => Ok(()),
        Node::Lit { atom, positive } => literal(made, holds(judge.atoms, atom, code) == positive),
        Node::And(g, h) => conjunction(made, lists.at(g as usize), lists.at(h as usize)),
        Node::Or(g, h) => disjunction(made, lists.at(g as usize), lists.at(h as usize)),
        Node::Next(g) => obligation(made, Duty::strongly(g as usize)),
        Node::WeakNext(g) => obligation(made, Duty::weakly(g as usize)),
        Node::Until(g, h) => until(
            made,
            &Duty::strongly(at),
            lists.at(g as usize),
            lists.at(h as usize),
        ),
        Node::Release(g, h) => release(
            made,
            &Duty::weakly(at),
            lists.at(g as usize),
            lists.at(h as usize),
        ),
    }
}

/// What a literal leaves.
fn literal<const W: usize>(made: &mut Family<W>, is_met: bool) -> M<()>
    requires width { W ≤ 16 }
    requires none { made.old.items ≡ [] }
    ensures { OnOk result (IsFamilyOf made.new.items (cond is_met (no_duty ∷ []) [])) }
{
    if is_met {
        made.push(Duty::none())?;
    }
    Ok(())
}

/// What a next leaves.
fn obligation<const W: usize>(made: &mut Family<W>, d: Duty<W>) -> M<()>
    requires { made.old.items ≡ [] }
    ensures { OnOk result (IsFamilyOf made.new.items (d.entry ∷ [])) }
{
    made.push(d)?;
    Ok(())
}

/// What a conjunction leaves.
fn conjunction<const W: usize>(made: &mut Family<W>, g: &[Duty<W>], h: &[Duty<W>]) -> M<()>
    requires width { W ≤ 16 }
    requires none { made.old.items ≡ [] }
    ensures { OnOk result (IsFamilyOf made.new.items (joined g.now h.now)) }
{
    add_joined(made, g, h)
}

/// What a disjunction leaves.
fn disjunction<const W: usize>(made: &mut Family<W>, g: &[Duty<W>], h: &[Duty<W>]) -> M<()>
    requires width { W ≤ 16 }
    requires none { made.old.items ≡ [] }
    ensures { OnOk result (IsFamilyOf made.new.items (g.now ++ h.now)) }
{
    add_all(made, g)?;
    add_all(made, h)
}

/// What an until leaves.
fn until<const W: usize>(
    made: &mut Family<W>,
    again: &Duty<W>,
    g: &[Duty<W>],
    h: &[Duty<W>],
) -> M<()>
    requires width { W ≤ 16 }
    requires none { made.old.items ≡ [] }
    ensures { OnOk result (IsFamilyOf made.new.items
        (h.now ++ joined (again.now ∷ []) g.now)) }
{
    add_all(made, h)?;
    add_with(made, again, g)
}

/// What a release leaves.
fn release<const W: usize>(
    made: &mut Family<W>,
    again: &Duty<W>,
    g: &[Duty<W>],
    h: &[Duty<W>],
) -> M<()>
    requires width { W ≤ 16 }
    requires none { made.old.items ≡ [] }
    ensures { OnOk result (IsFamilyOf made.new.items
        (joined h.now g.now ++ joined (again.now ∷ []) h.now)) }
{
    add_joined(made, h, g)?;
    add_with(made, again, h)
}
