//! The residuals that joint letters lead to, found row by row.

ghost use Rattle.std.specs.Prelude.{◌≡◌, ℕ, ◌≤◌, ◌<◌, ◌*◌, ◌^◌, ◌+◌, length, map, IfOk, OnOk, IfErr};
ghost use Rattle.hy_formula.specs.Quantifiers.{Each};
ghost use Rattle.hy_formula.specs.Atoms.{plain_atom};
ghost use Rattle.fin_monitor.specs.Duties.{residual_at, accepts};
ghost use Rattle.fin_monitor.specs.Lefts.{kept_lists, AreMasks};
ghost use Rattle.fin_monitor.specs.Reductions.{LeaveAlike, AreFirsts};
ghost use Rattle.fin_monitor.specs.Tables.{AreAllLefts, Puts, Follows, IsExplored, IsPutRefusal, IsTableRefusal, IsAutomaton};

use crate::automaton::Automaton;
use crate::duty::Duty;
use crate::families::{Family, single};
use crate::lefts::Judge;
use crate::lefts_by_code::LeftsByCode;
use crate::members::{asked_in, asked_masks};
use crate::monitor_error::MonitorError;
use crate::reducing::reduced;
use crate::repeats::Repeats;
use hy_base::{Kind, List, M, NumList};
use indexmap::IndexSet;
use ltl_closure::{Closure, Obl};
use std::alloc::Global;

/// The most residuals times joint letters.
const MOST_ENTRIES: usize = 4_194_304;

/// The residuals so far, the first of them with their rows of the table.
#[derive(Drop)]
struct Explored<const W: usize> {
    residuals: IndexSet<Family<W>>,
    table: NumList,
    lefts: LeftsByCode<W>,
}

/// All residuals that the starting one leads to. `Limit` comes exactly where these, times the joint
/// letters, are more than 4,194,304, and as soon as one more is met.
pub fn explore<const W: usize>(
    alloc: Global,
    judge: &Judge,
    root: u32,
) -> Result<Automaton, MonitorError>
    requires width { W ≤ 16 }
    requires members { length judge.now.closure.now.nodes ≤ 64 * W }
    requires few { length judge.now.atoms.now ≤ 16 }
    requires root { root < length judge.now.closure.now.nodes }
    ensures automaton { IfOk result (IsAutomaton judge.now.closure.now.nodes root
        (map plain_atom judge.now.atoms.now)) }
    ensures refused { IfErr result (IsTableRefusal judge.now.closure.now.nodes root
        (map plain_atom judge.now.atoms.now)) }
{
    let masks = asked_masks(alloc, judge.closure, judge.atoms)?;
    let mut explored = Explored::<W>::new(alloc, judge, root)?;
    let mut repeats = Repeats::<W>::new(alloc);
    let mut rows = 0;
    while rows < explored.residuals.len() {
        explored.add_row(alloc, judge, &masks, root, &mut repeats, rows)?;
        rows += 1;
    }
    let accepting = all_accepting(alloc, explored.residuals.as_slice())?;
    Ok(Automaton {
        table: explored.table,
        accepting,
    })
}

impl<const W: usize> Explored<W> {
    /// The starting residual alone.
    fn new(alloc: Global, judge: &Judge, root: u32) -> M<Explored<W>>
        requires width { W ≤ 16 }
        requires members { length judge.now.closure.now.nodes ≤ 64 * W }
        requires few { length judge.now.atoms.now ≤ 16 }
        requires root { root < length judge.now.closure.now.nodes }
        ensures explored { IfOk result (λ e. IsExplored judge.now.closure.now.nodes root
            (map plain_atom judge.now.atoms.now) (kept_lists e.residuals.keys) e.table) }
        ensures none { IfOk result (λ e. length e.table ≡ 0) }
        ensures some { IfOk result (λ e. 0 < length e.lefts.kept.items) }
        ensures lefts { IfOk result (λ e. Each (λ k. AreAllLefts judge.now.closure.now.nodes
            (map plain_atom judge.now.atoms.now) k.code (kept_lists k.lists))
            e.lefts.kept.items) }
    {
        let mut residuals = IndexSet::new(alloc);
        let start = single(alloc, Duty::strongly(root as usize))?;
        put(&mut residuals, start)?;
        Ok(Explored {
            residuals,
            table: NumList::new(alloc),
            lefts: LeftsByCode::new(alloc, judge)?,
        })
    }

    /// Adds the row of a residual: a copy of the one of a residual that leaves the same, where
    /// there is one.
    fn add_row(
        &mut self,
        alloc: Global,
        judge: &Judge,
        masks: &NumList,
        root: u32,
        repeats: &mut Repeats<W>,
        row: usize,
    ) -> Result<(), MonitorError>
        requires width { W ≤ 16 }
        requires members { length judge.now.closure.now.nodes ≤ 64 * W }
        requires few { length judge.now.atoms.now ≤ 16 }
        requires masks { AreMasks judge.now.closure.now.nodes
            (map plain_atom judge.now.atoms.now) masks.now }
        requires there { row < length self.old.residuals.keys }
        requires rows { length self.old.table ≡ row * 2 ^ length judge.now.atoms.now }
        requires explored { IsExplored judge.now.closure.now.nodes root
            (map plain_atom judge.now.atoms.now) (kept_lists self.old.residuals.keys) self.old.table }
        requires some { 0 < length self.old.lefts.kept.items }
        requires lefts { Each (λ k. AreAllLefts judge.now.closure.now.nodes
            (map plain_atom judge.now.atoms.now) k.code (kept_lists k.lists))
            self.old.lefts.kept.items }
        requires repeats { AreFirsts judge.now.closure.now.nodes
            (kept_lists self.old.residuals.keys) (kept_lists repeats.old.reduced.keys)
            repeats.old.firsts row }
        ensures repeats { OnOk result (AreFirsts judge.now.closure.now.nodes
            (kept_lists self.new.residuals.keys) (kept_lists repeats.new.reduced.keys)
            repeats.new.firsts (row + 1)) }
        ensures rows { OnOk result (length self.new.table
            ≡ (row + 1) * 2 ^ length judge.now.atoms.now) }
        ensures more { OnOk result (row < length self.new.residuals.keys) }
        ensures explored { OnOk result (IsExplored judge.now.closure.now.nodes root
            (map plain_atom judge.now.atoms.now) (kept_lists self.new.residuals.keys)
            self.new.table) }
        ensures some { OnOk result (0 < length self.new.lefts.kept.items) }
        ensures lefts { OnOk result (Each (λ k. AreAllLefts judge.now.closure.now.nodes
            (map plain_atom judge.now.atoms.now) k.code (kept_lists k.lists))
            self.new.lefts.kept.items) }
        ensures refused { IfErr result (IsTableRefusal judge.now.closure.now.nodes root
            (map plain_atom judge.now.atoms.now)) }
    {
        let residual = reduced_of(alloc, judge.closure, &self.residuals, row)?;
        if let Some(first) = repeats.first_row(alloc, &residual, row as u32)? {
            self.copy_row(judge, root, row, first as usize)?;
            return Ok(());
        }
        self.fill_row(alloc, judge, masks, root, &residual, row)
    }

    /// Copies a row for a residual that leaves the same as the one of that row.
    fn copy_row(&mut self, judge: &Judge, root: u32, row: usize, first: usize) -> M<()>
        requires few { length judge.now.atoms.now ≤ 16 }
        requires there { row < length self.old.residuals.keys }
        requires before { first < row }
        requires rows { length self.old.table ≡ row * 2 ^ length judge.now.atoms.now }
        requires explored { IsExplored judge.now.closure.now.nodes root
            (map plain_atom judge.now.atoms.now) (kept_lists self.old.residuals.keys) self.old.table }
        requires alike { LeaveAlike judge.now.closure.now.nodes
            (residual_at (kept_lists self.old.residuals.keys) first)
            (residual_at (kept_lists self.old.residuals.keys) row) }
        ensures residuals { self.new.residuals ≡ self.old.residuals }
        ensures lefts { self.new.lefts ≡ self.old.lefts }
        ensures rows { OnOk result (length self.new.table
            ≡ (row + 1) * 2 ^ length judge.now.atoms.now) }
        ensures explored { OnOk result (IsExplored judge.now.closure.now.nodes root
            (map plain_atom judge.now.atoms.now) (kept_lists self.old.residuals.keys)
            self.new.table) }
    {
        let start = first << judge.atoms.len();
        for code in 0..1 << judge.atoms.len() {
            let next = *self.table.at(start + code);
            self.table.push(next)?;
        }
        Ok(())
    }

    /// Fills the row of a residual. Codes that agree where its obligations ask share one computation.
    fn fill_row(
        &mut self,
        alloc: Global,
        judge: &Judge,
        masks: &NumList,
        root: u32,
        residual: &[Duty<W>],
        row: usize,
    ) -> Result<(), MonitorError>
        requires width { W ≤ 16 }
        requires members { length judge.now.closure.now.nodes ≤ 64 * W }
        requires few { length judge.now.atoms.now ≤ 16 }
        requires masks { AreMasks judge.now.closure.now.nodes
            (map plain_atom judge.now.atoms.now) masks.now }
        requires there { row < length self.old.residuals.keys }
        requires rows { length self.old.table ≡ row * 2 ^ length judge.now.atoms.now }
        requires explored { IsExplored judge.now.closure.now.nodes root
            (map plain_atom judge.now.atoms.now) (kept_lists self.old.residuals.keys) self.old.table }
        requires some { 0 < length self.old.lefts.kept.items }
        requires lefts { Each (λ k. AreAllLefts judge.now.closure.now.nodes
            (map plain_atom judge.now.atoms.now) k.code (kept_lists k.lists))
            self.old.lefts.kept.items }
        requires residual { LeaveAlike judge.now.closure.now.nodes residual.now
            (residual_at (kept_lists self.old.residuals.keys) row) }
        ensures stays { OnOk result ((q : ℕ) → q < length self.old.residuals.keys
            → residual_at (kept_lists self.new.residuals.keys) q
            ≡ residual_at (kept_lists self.old.residuals.keys) q) }
        ensures rows { OnOk result (length self.new.table
            ≡ (row + 1) * 2 ^ length judge.now.atoms.now) }
        ensures more { OnOk result (row < length self.new.residuals.keys) }
        ensures explored { OnOk result (IsExplored judge.now.closure.now.nodes root
            (map plain_atom judge.now.atoms.now) (kept_lists self.new.residuals.keys)
            self.new.table) }
        ensures some { OnOk result (0 < length self.new.lefts.kept.items) }
        ensures lefts { OnOk result (Each (λ k. AreAllLefts judge.now.closure.now.nodes
            (map plain_atom judge.now.atoms.now) k.code (kept_lists k.lists))
            self.new.lefts.kept.items) }
        ensures refused { IfErr result (IsTableRefusal judge.now.closure.now.nodes root
            (map plain_atom judge.now.atoms.now)) }
    {
        let mask = asked_in(residual, masks);
        let first = self.table.len();
        for code in 0..1 << judge.atoms.len() {
            let asked = code & mask;
            let next = if asked == code {
                self.follow(alloc, judge, masks, root, residual, row, code)?
            } else {
                *self.table.at(first + asked as usize)
            };
            self.table.push(next)?;
        }
        Ok(())
    }

    /// The number of the residual that follows one after the joint letter of a code.
    fn follow(
        &mut self,
        alloc: Global,
        judge: &Judge,
        masks: &NumList,
        root: u32,
        residual: &[Duty<W>],
        row: usize,
        code: u32,
    ) -> Result<u32, MonitorError>
        requires width { W ≤ 16 }
        requires members { length judge.now.closure.now.nodes ≤ 64 * W }
        requires few { length judge.now.atoms.now ≤ 16 }
        requires masks { AreMasks judge.now.closure.now.nodes
            (map plain_atom judge.now.atoms.now) masks.now }
        requires there { row < length self.old.residuals.keys }
        requires residual { LeaveAlike judge.now.closure.now.nodes residual.now
            (residual_at (kept_lists self.old.residuals.keys) row) }
        requires explored { IsExplored judge.now.closure.now.nodes root
            (map plain_atom judge.now.atoms.now) (kept_lists self.old.residuals.keys) self.old.table }
        requires some { 0 < length self.old.lefts.kept.items }
        requires lefts { Each (λ k. AreAllLefts judge.now.closure.now.nodes
            (map plain_atom judge.now.atoms.now) k.code (kept_lists k.lists))
            self.old.lefts.kept.items }
        ensures table { self.new.table ≡ self.old.table }
        ensures some { OnOk result (0 < length self.new.lefts.kept.items) }
        ensures lefts { OnOk result (Each (λ k. AreAllLefts judge.now.closure.now.nodes
            (map plain_atom judge.now.atoms.now) k.code (kept_lists k.lists))
            self.new.lefts.kept.items) }
        ensures follows { IfOk result (Follows judge.now.closure.now.nodes root
            (map plain_atom judge.now.atoms.now) (kept_lists self.old.residuals.keys)
            (kept_lists self.new.residuals.keys) self.old.table row code) }
        ensures refused { IfErr result (IsTableRefusal judge.now.closure.now.nodes root
            (map plain_atom judge.now.atoms.now)) }
    {
        let left = self.lefts.step(alloc, judge, masks, code, residual)?;
        self.number(left, judge.atoms.len())
    }

    /// The number of a residual, which is added last where it is new.
    fn number(&mut self, residual: Family<W>, bits: usize) -> Result<u32, MonitorError>
        requires bits { bits ≤ 16 }
        requires few { length self.old.residuals.keys * 2 ^ bits ≤ 4194304 }
        ensures table { self.new.table ≡ self.old.table }
        ensures lefts { self.new.lefts ≡ self.old.lefts }
        ensures put { IfOk result (Puts (kept_lists self.old.residuals.keys) residual.entry.items
            (kept_lists self.new.residuals.keys)) }
        ensures few { OnOk result (length self.new.residuals.keys * 2 ^ bits ≤ 4194304) }
        ensures refused { IfErr result (IsPutRefusal (kept_lists self.old.residuals.keys)
            residual.entry.items bits) }
    {
        let place = put(&mut self.residuals, residual)?;
        if self.residuals.len() > MOST_ENTRIES >> bits {
            return Err(MonitorError::Limit(Kind::Table));
        }
        Ok(place as u32)
    }
}

/// Puts a residual last where it is new, and answers its place.
pub fn put<const W: usize>(residuals: &mut IndexSet<Family<W>>, residual: Family<W>) -> M<usize>
    ensures { IfOk result (Puts (kept_lists residuals.old.keys) residual.entry.items
        (kept_lists residuals.new.keys)) }
{
    let (place, _) = residuals.insert_full(residual)?;
    Ok(place)
}

/// The reduced residual of a row.
fn reduced_of<const W: usize>(
    alloc: Global,
    closure: &Closure,
    residuals: &IndexSet<Family<W>>,
    row: usize,
) -> M<Family<W>>
    requires width { W ≤ 16 }
    requires members { length closure.now.nodes ≤ 64 * W }
    requires there { row < length residuals.now.keys }
    ensures { IfOk result (λ made. LeaveAlike closure.now.nodes made.items
        (residual_at (kept_lists residuals.now.keys) row)) }
{
    reduced(alloc, closure, &residuals.as_slice()[row])
}

/// Whether each residual accepts.
fn all_accepting<const W: usize>(alloc: Global, residuals: &[Family<W>]) -> M<List<bool>>
    requires { W ≤ 16 }
    ensures { IfOk result (λ made. made ≡ map accepts (kept_lists residuals.now)) }
{
    let mut accepting = List::new(alloc);
    for residual in residuals {
        accepting.push(is_accepting(residual))?;
    }
    Ok(accepting)
}

/// Whether some duty has no strong obligation.
fn is_accepting<const W: usize>(residual: &[Duty<W>]) -> bool
    requires { W ≤ 16 }
    ensures { result ≡ accepts residual.now }
{
    for d in residual {
        if d.strong.is_subset(&Obl::empty()) {
            return true;
        }
    }
    false
}
