//! The maps of a job: which lasso each variable of a formula is.

ghost use Rattle.std.specs.Prelude.{◌≡◌, ◌+◌, ◌<◌, ◌≤◌, ◌++◌, ◌∷◌, length, map, OnOk, IfOk, IfErr, MatchOption, IsTrue};
ghost use Rattle.std.specs.List.{flat_map, range_with_len};
ghost use Rattle.hy_formula.specs.Trees.{tree_of, vars_below};
ghost use Rattle.ltl_closure.specs.Jobs.{tasks_by, IsMapped, AreMappedBelow};
ghost use Rattle.ea_reduce.specs.Plans.{existentials, instances, maps_of, plain_job};
ghost use Rattle.ea_reduce.specs.Refused.{most_maps, RefusesMaps};

use crate::reduce_error::ReduceError;
use hy_base::{Kind, Limit, M};
use hy_formula::{Body, Quant};
use ltl_closure::{Job, MapList, VariableMap};
use std::alloc::Global;

/// The most maps of a job.
const MAX_MAPS: usize = 4_096;

/// How many of the quantifiers are existential.
pub fn existentials(quants: &[Quant]) -> u8
    requires { length quants.now ≤ 8 }
    ensures count { result ≡ existentials quants.now }
    ensures few { result ≤ length quants.now }
{
    match quants {
        [] => 0,
        [Quant::Exists, rest @ ..] => existentials(rest) + 1,
        [Quant::Forall, rest @ ..] => existentials(rest),
    }
}

/// How many maps the quantifiers have on `vars` lassos. `None` exactly where there are more than
/// 4,096.
fn instances(quants: &[Quant], vars: u8) -> Option<usize>
    requires some { 0 < vars }
    requires few { vars ≤ 16 }
    ensures { MatchOption result (most_maps < instances vars quants.now)
        (λ n. (n ≡ instances vars quants.now) × (n ≤ most_maps)) }
{
    match quants {
        [] => Some(1),
        [Quant::Exists, rest @ ..] => instances(rest, vars),
        [Quant::Forall, rest @ ..] => {
            let count = usize::from(vars) * instances(rest, vars)?;
            if count > MAX_MAPS {
                return None;
            }
            Some(count)
        }
    }
}

/// A copy of the body with the maps of its quantifiers, whose existential variables are numbered
/// from `next` on, on `vars` lassos.
pub fn job(
    alloc: Global,
    body: &Body,
    positive: bool,
    quants: &[Quant],
    next: u8,
    vars: u8,
) -> Result<Job, ReduceError>
    requires few { length quants.now ≤ 8 }
    requires some { 0 < vars }
    requires few_vars { vars ≤ 16 }
    requires inside { next + existentials quants.now ≤ 16 }
    requires bound { IsTrue (vars_below (length quants.now) (tree_of body.now)) }
    ensures job { IfOk result (λ j. plain_job j ≡ record {
      body = tree_of body.now;
      positive = positive;
      maps = maps_of vars next quants.now;
    }) }
    ensures few { OnOk result (length (maps_of vars next quants.now) ≤ most_maps) }
    ensures mapped { IfOk result IsMapped }
    ensures below { next + existentials quants.now ≤ vars
        → IfOk result (λ j. AreMappedBelow vars (tasks_by (tree_of j.body) j.positive j.maps)) }
    ensures refused { IfErr result (RefusesMaps (maps_of vars next quants.now)) }
{
    if instances(quants, vars).is_none() {
        return Err(ReduceError::Limit(Limit {
            kind: Kind::Instances,
            limit: MAX_MAPS as u64,
        }));
    }
    Ok(Job {
        body: body.copy(alloc)?,
        positive,
        maps: maps_of(alloc, quants, next, vars)?,
    })
}

/// The maps of the quantifiers on `vars` lassos, where the existential variables are numbered from
/// `next` on.
fn maps_of(alloc: Global, quants: &[Quant], next: u8, vars: u8) -> M<MapList>
    requires { next + existentials quants.now < 256 }
    ensures { IfOk result (λ maps. maps ≡ maps_of vars next quants.now) }
{
    match quants {
        [] => {
            let mut maps = MapList::new(alloc);
            maps.push(VariableMap::new(alloc))?;
            Ok(maps)
        }
        [Quant::Exists, rest @ ..] => {
            let rest = maps_of(alloc, rest, next + 1, vars)?;
            let mut maps = MapList::new(alloc);
            add_each(alloc, next, &rest, &mut maps)?;
            Ok(maps)
        }
        [Quant::Forall, rest @ ..] => spread(alloc, vars, &maps_of(alloc, rest, next, vars)?),
    }
}

/// Each of the maps behind each of the first `vars` numbers.
fn spread(alloc: Global, vars: u8, rest: &MapList) -> M<MapList>
    ensures { IfOk result (λ maps.
        maps ≡ flat_map (λ k. map (λ m. k ∷ m) rest.now) (range_with_len 0 vars)) }
{
    let mut maps = MapList::new(alloc);
    for k in 0..vars {
        add_each(alloc, k, rest, &mut maps)?;
    }
    Ok(maps)
}

/// Adds each of the maps behind the number `k`.
fn add_each(alloc: Global, k: u8, rest: &MapList, maps: &mut MapList) -> M<()>
    ensures { OnOk result (maps.new ≡ maps.old ++ map (λ m. k ∷ m) rest.now) }
{
    for more in rest.as_slice() {
        let mut made = VariableMap::new(alloc);
        made.push(k)?;
        made.extend(more.as_slice())?;
        maps.push(made)?;
    }
    Ok(())
}
