//! The order in which the ands are taken.

ghost use Rattle.std.specs.Prelude.{◌≡◌, ℕ, suc, ◌+◌, ◌/◌, ◌<◌, ◌≤◌, ◌∷◌, ◌++◌, ◌||◌, true, false, List, [], length, IfOk, IfSome, IfNone, OnOk, None, slice_index_or, slice_set};
ghost use Rattle.aig_order.specs.Firsts.{holds};
ghost use Rattle.aig_order.specs.Gates.{gate_at, order, with_next};
ghost use Rattle.aig_order.specs.Takings.{AreApart, AreDefiners, AreUsers, AreTaken, AreReadied, AreSetUp, IsNextAnswer, IsHeldAnswer, IsReadied, HasUser, is_open};

use crate::gate::Gate;
use crate::ready::Ready;
use hy_base::{List, M};
use std::alloc::Global;

/// For each variable the number of the and that defines it.
pub type Definers = List<Option<u32>>;

/// For each and the numbers of those that use it.
pub type Users = Vec<List<u32>>;

/// The ands that have been taken, and those that can be.
#[derive(Drop)]
pub struct Taking {
    /// The numbers of those taken, in their order.
    pub order: List<u32>,
    /// For each and whether it is taken.
    pub taken: List<bool>,
    /// Those that wait for none; some may be taken by now.
    ready: Ready,
}

/// Which and defines each variable up to the greatest, `top`.
pub fn definers(alloc: Global, gates: &[Gate], top: u32) -> M<Definers>
    requires apart { AreApart gates.now top }
    requires few { length gates.now ≤ 1048576 }
    requires top { top ≤ 1048576 }
    ensures { IfOk result (λ list. AreSetUp gates.now list) }
{
    let mut list = no_definers(alloc, top)?;
    for k in 0..gates.len() {
        list.set((gates[k].lhs / 2) as usize, Some(k as u32));
    }
    Ok(list)
}

fn no_definers(alloc: Global, top: u32) -> M<Definers>
    requires top { top ≤ 1048576 }
    ensures long { IfOk result (λ list. length list ≡ top + 1) }
    ensures none { IfOk result (λ list. (v : ℕ) → slice_index_or list v None ≡ None) }
{
    let mut list = List::new(alloc);
    for _ in 0..top + 1 {
        list.push(None)?;
    }
    Ok(list)
}

/// The and that defines the literal's variable.
pub fn definer(definers: &Definers, l: u32) -> Option<u32>
    requires { l / 2 < length definers.now }
    ensures { result ≡ slice_index_or definers.now (l / 2) None }
{
    *definers.at((l / 2) as usize)
}

/// Which ands use each and.
fn users(alloc: Global, gates: &[Gate], definers: &Definers) -> M<Users>
    requires { AreSetUp gates.now definers.now }
    ensures { IfOk result (λ users. AreUsers gates.now (length gates.now) users.items) }
{
    let mut users = no_users(alloc, gates)?;
    for k in 0..gates.len() {
        let gate = &gates[k];
        add_user(definer(definers, gate.left), k as u32, &mut users)?;
        add_user(definer(definers, gate.right), k as u32, &mut users)?;
    }
    Ok(users)
}

fn no_users(alloc: Global, gates: &[Gate]) -> M<Users>
    ensures { IfOk result (λ users. length users.items ≡ length gates.now) }
{
    let mut users = Vec::new(alloc);
    for _ in gates {
        users.push(List::new(alloc))?;
    }
    Ok(users)
}

fn add_user(used: Option<u32>, user: u32, users: &mut Users) -> M<()>
    requires { IfSome used (λ j. j < length users.old.items) }
    ensures { OnOk result (HasUser used user users.old.items users.new.items) }
{
    if let Some(j) = used {
        users[j as usize].push(user)?;
    }
    Ok(())
}

/// Whether the and uses one that is not taken.
fn waits(gates: &[Gate], definers: &Definers, taken: &List<bool>, k: usize) -> bool
    requires inside { k < length gates.now }
    requires low { (gate_at gates.now k).left / 2 < length definers.now }
    requires also { (gate_at gates.now k).right / 2 < length definers.now }
    ensures { result ≡
        (is_open definers.now taken.now
        (gate_at gates.now k).left || is_open definers.now taken.now (gate_at gates.now k).right) }
{
    let gate = &gates[k];
    is_open(definers, taken, gate.left) || is_open(definers, taken, gate.right)
}

/// Whether the literal's variable is that of an and that is not taken.
fn is_open(definers: &Definers, taken: &List<bool>, l: u32) -> bool
    requires { l / 2 < length definers.now }
    ensures { result ≡ is_open definers.now taken.now l }
{
    match definer(definers, l) {
        Some(j) => !is_taken(taken, j),
        None => false,
    }
}

fn is_taken(taken: &List<bool>, k: u32) -> bool
    ensures { result ≡ slice_index_or taken.now k false }
{
    (k as usize) < taken.len() && *taken.at(k as usize)
}

/// Whether the number is that of no and, or of one that waits.
fn is_held(gates: &[Gate], definers: &Definers, taken: &List<bool>, k: u32) -> bool
    requires { AreSetUp gates.now definers.now }
    ensures { IsHeldAnswer gates.now definers.now taken.now k result }
{
    if k as usize >= gates.len() {
        return true;
    }
    waits(gates, definers, taken, k as usize)
}

/// Readies the number, unless it is held.
fn ready_unless(held: bool, k: u32, ready: &mut Ready) -> M<()>
    ensures { OnOk result (IsReadied held k ready.old ready.new) }
{
    if held {
        return Ok(());
    }
    ready.push(k)
}

/// The least that is ready and not taken.
fn next_ready(taken: &List<bool>, ready: &mut Ready) -> Option<u32>
    ensures { IsNextAnswer taken.now ready.old ready.new result }
{
    while let Some(k) = ready.pop() {
        if !is_taken(taken, k) {
            return Some(k);
        }
    }
    None
}

/// Nothing is taken, and what uses no and is ready.
fn first_ready(alloc: Global, gates: &[Gate], definers: &Definers) -> M<Taking>
    requires { AreSetUp gates.now definers.now }
    ensures none { IfOk result (λ t. t.order ≡ []) }
    ensures ready { IfOk result (λ t. AreTaken gates.now t.order t.taken t.ready) }
{
    let taken = no_marks(alloc, gates)?;
    let mut ready = Ready::new(alloc);
    for k in 0..gates.len() {
        let held = waits(gates, definers, &taken, k);
        ready_unless(held, k as u32, &mut ready)?;
    }
    Ok(Taking {
        order: List::new(alloc),
        taken,
        ready,
    })
}

fn no_marks(alloc: Global, gates: &[Gate]) -> M<List<bool>>
    ensures long { IfOk result (λ marks. length marks ≡ length gates.now) }
    ensures none { IfOk result (λ marks. (k : ℕ) → slice_index_or marks k false ≡ false) }
{
    let mut marks = List::new(alloc);
    for _ in gates {
        marks.push(false)?;
    }
    Ok(marks)
}

/// Takes the and, and readies those of its users that now wait for none.
fn take_one(
    gates: &[Gate],
    definers: &Definers,
    users: &[u32],
    k: u32,
    taking: &mut Taking,
) -> M<()>
    requires small { k < length gates.now }
    requires set { AreSetUp gates.now definers.now }
    requires readied { AreReadied gates.now users.now 0 (taking.old.order ++ k ∷ [])
        (slice_set taking.old.taken k true) taking.old.ready }
    ensures order { OnOk result (taking.new.order ≡ taking.old.order ++ k ∷ []) }
    ensures taken { OnOk result
        (AreTaken gates.now taking.new.order taking.new.taken taking.new.ready) }
{
    taking.order.push(k)?;
    taking.taken.set(k as usize, true);
    for u in users {
        let held = is_held(gates, definers, &taking.taken, *u);
        ready_unless(held, *u, &mut taking.ready)?;
    }
    Ok(())
}

/// Takes the next and, if one can be taken.
fn take_next(gates: &[Gate], definers: &Definers, users: &Users, taking: &mut Taking) -> M<()>
    requires set { AreSetUp gates.now definers.now }
    requires users { AreUsers gates.now (length gates.now) users.now.items }
    requires taken { AreTaken gates.now taking.old.order taking.old.taken taking.old.ready }
    ensures order { OnOk result (taking.new.order ≡ with_next gates.now taking.old.order) }
    ensures taken { OnOk result
        (AreTaken gates.now taking.new.order taking.new.taken taking.new.ready) }
{
    let Some(k) = next_ready(&taking.taken, &mut taking.ready) else {
        return Ok(());
    };
    take_one(gates, definers, users[k as usize].as_slice(), k, taking)?;
    Ok(())
}

/// The numbers of the ands in the order in which they are taken: again and again the first in the
/// order of the text that uses only what is taken. Those that depend on themselves, or on one that
/// does, are left out. In time n log n.
pub fn order(alloc: Global, gates: &[Gate], definers: &Definers) -> M<List<u32>>
    requires { AreSetUp gates.now definers.now }
    ensures { IfOk result (λ list. list ≡ order gates.now) }
{
    let users = users(alloc, gates, definers)?;
    let mut taking = first_ready(alloc, gates, definers)?;
    for _ in gates {
        take_next(gates, definers, &users, &mut taking)?;
    }
    Ok(taking.order)
}
