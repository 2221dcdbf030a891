//! The monitor of formulas, before all events.

ghost use Rattle.std.specs.Prelude.{◌≡◌, ◌<◌, ◌≤◌, ◌^◌, IfOk, IfErr, IfNone, IfSome, OnOk, All, MatchOption, Some, map, length};
ghost use Rattle.hy_base.specs.declared.limit.Kind.{Kind as WhatKind};
ghost use Rattle.hy_formula.specs.Trees.{tree_of};
ghost use Rattle.fin_monitor.specs.Limits.{IsTaken, IsRefusal};
ghost use Rattle.rv_core.specs.Built.{HasFewQuantifiers, AreUniversal, EachBody, earlier, IsFresh, AreFresh, IsNewRefusal, FirstOther, spec_of_formula};
ghost use Rattle.rv_core.specs.Held.{spec_of};
ghost use Rattle.rv_core.specs.Seen.{watched, watched_by};

use crate::kept::Kept;
use crate::names::Names;
use crate::rv::Rv;
use crate::rv_error::RvNewError;
use crate::sessions::Sessions;
use crate::watch::Watch;
use fin_monitor::{Monitor, MonitorError};
use hy_base::{Kind, List};
use hy_finite::Lengths;
use hy_formula::{Class, Formula, class};
use std::alloc::Global;

impl Rv {
    ghost use Rattle.rv_core.specs.Histories.{empty_history};
    ghost use Rattle.rv_core.specs.Held.{specs_of, StandsFor};
    ghost use Rattle.rv_core.specs.Seen.{held};

    /// The monitor of formulas, which number their specs from 0, before all events. Tuples of
    /// traces are judged by the rule. Of traces that arrive, each spec keeps its own names alone, and
    /// of equal ones the first; with `drop_dominated` leaders alone are kept: those that no other one
    /// dominates.
    ///
    /// `Prefix` names the first formula that is not universal. Else `Limit` comes exactly where a
    /// closure has more than 1,024 members; or else a body more than 16 indexed atoms; or else more
    /// than 4,194,304 residuals times joint letters; each kind over all formulas before the next.
    /// In time and memory those of `Monitor::build` for each formula.
    pub fn new(
        alloc: Global,
        formulas: &[Formula],
        rule: Lengths,
        drop_dominated: bool,
    ) -> Result<Rv, RvNewError>
        requires quantifiers { All HasFewQuantifiers formulas.now }
        requires countable { length formulas.now < 2 ^ 32 }
        ensures stands { IfOk result (λ rv. StandsFor (held rv) empty_history) }
        ensures rule { IfOk result (λ rv. (held rv).rule ≡ rule) }
        ensures drop { IfOk result (λ rv. (held rv).drop ≡ drop_dominated) }
        ensures specs { IfOk result (λ rv. specs_of (held rv) ≡ map spec_of_formula formulas.now) }
        ensures universal { OnOk result (AreUniversal formulas.now) }
        ensures taken { OnOk result (EachBody IsTaken formulas.now) }
        ensures refused { IfErr result (IsNewRefusal formulas.now) }
    {
        all_universal(formulas)?;
        let watches = watches_of(alloc, formulas, drop_dominated)?;
        let kept = Kept::none(alloc, watches.len())?;
        let sessions = Sessions::none(alloc)?;
        Ok(Rv {
            rule,
            drop_dominated,
            watches,
            traces: 0,
            kept,
            sessions,
            saves: List::new(alloc),
            clean: true,
        })
    }
}

/// `Prefix` names the first formula that is not universal.
fn all_universal(formulas: &[Formula]) -> Result<(), RvNewError>
    requires { length formulas.now < 2 ^ 32 }
    ensures universal { OnOk result (AreUniversal formulas.now) }
    ensures refused { IfErr result (IsNewRefusal formulas.now) }
{
    for (i, formula) in formulas.iter().enumerate() {
        match class(formula) {
            Class::Forall => {}
            class => {
                let spec = i as u32;
                return Err(RvNewError::Prefix { spec, class });
            }
        }
    }
    Ok(())
}

/// A watch of each formula. `Limit` as `Rv::new` says.
fn watches_of(alloc: Global, formulas: &[Formula], drops: bool) -> Result<List<Watch>, RvNewError>
    requires quantifiers { All HasFewQuantifiers formulas.now }
    requires universal { AreUniversal formulas.now }
    ensures fresh { IfOk result (λ made. AreFresh formulas.now (watched_by made)) }
    ensures taken { OnOk result (EachBody IsTaken formulas.now) }
    ensures refused { IfErr result (IsNewRefusal formulas.now) }
{
    let mut watches = List::new(alloc);
    let mut refused = None;
    for formula in formulas {
        match watch_of(alloc, formula, drops) {
            Ok(watch) => watches.push(watch)?,
            Err(MonitorError::Limit(kind)) => refused = Some(first_kind(refused, kind)),
            Err(MonitorError::Memory) => return Err(RvNewError::Memory),
        }
    }
    match refused {
        None => Ok(watches),
        Some(kind) => Err(RvNewError::Limit(kind)),
    }
}

/// The watch of a formula.
fn watch_of(alloc: Global, formula: &Formula, drops: bool) -> Result<Watch, MonitorError>
    requires { HasFewQuantifiers formula.now }
    ensures fresh { IfOk result (λ made. IsFresh formula.now (watched made)) }
    ensures taken { OnOk result (IsTaken (tree_of formula.now.body)) }
    ensures refused { IfErr result (IsRefusal (tree_of formula.now.body)) }
{
    let monitor = Monitor::build(alloc, &formula.body, formula.prefix.len() as u8)?;
    let names = Names::of(alloc, &formula.body)?;
    Ok(Watch::new(alloc, names, monitor, drops)?)
}

/// Of two kinds that are refused the one that is answered.
fn first_kind(refused: Option<Kind>, kind: Kind) -> Kind
    ensures { result ≡ earlier refused kind }
{
    match (refused, kind) {
        (Some(Kind::Closure), _) | (_, Kind::Closure) => Kind::Closure,
        (Some(Kind::Atoms), _) | (_, Kind::Atoms) => Kind::Atoms,
        _ => kind,
    }
}
