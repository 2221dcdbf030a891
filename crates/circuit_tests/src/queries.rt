//! A worked example, its clauses written out by hand: one input, one latch that takes the opposite
//! of the input, the and of the latch and the input, which is never true, and the latch is bad. In
//! frame j the constant has the number 4j + 1, the input 4j + 2, the latch 4j + 3, the and 4j + 4.

ghost use Rattle.std.specs.Prelude.{◌≡◌, length, IfOk};
ghost use Rattle.cnf_frames.specs.Facts.{IsSafe};

use aig_net::{And, AndList, NameList, Net, NetParts, Reset, ResetList};
use cnf_frames::{Fact, FrameError, Inv, Query, base_query, keep_query, step_query};
use hy_base::{NumList, Text};
use live_safe::SafeNet;
use std::alloc::Global;

fn example(alloc: Global) -> Result<SafeNet, FrameError>
    ensures safe { IfOk result (λ safe. IsSafe safe) }
    ensures latches { IfOk result (λ safe. length safe.net.latches ≡ 1) }
{
    let mut latches = NumList::new(alloc);
    latches.push(3)?;
    let mut resets = ResetList::new(alloc);
    resets.push(Reset::Zero)?;
    let mut ands = AndList::new(alloc);
    ands.push(And { left: 4, right: 2 })?;
    let mut constraints = NumList::new(alloc);
    constraints.push(7)?;
    let mut input_names = NameList::new(alloc);
    input_names.push(Text::new(alloc))?;
    let mut latch_names = NameList::new(alloc);
    latch_names.push(Text::new(alloc))?;
    let parts = NetParts {
        inputs: 1,
        latches,
        resets,
        ands,
        outputs: NumList::new(alloc),
        constraints,
        fairs: NumList::new(alloc),
        input_names,
        latch_names,
        output_names: NameList::new(alloc),
    };
    let net = Net::new(parts);
    net.variables(); // what each net keeps
    Ok(SafeNet { net, bad: 4 })
}

/// Whether the clauses are these, each with a 0 after it.
fn has(query: &Query, numbers: &[i32]) -> bool {
    let mut at = 0;
    for i in 0..query.cnf.clauses.len() {
        for literal in query.cnf.clauses.clause(i) {
            if at >= numbers.len() || numbers[at] != literal.number() {
                return false;
            }
            at += 1;
        }
        if at >= numbers.len() || numbers[at] != 0 {
            return false;
        }
        at += 1;
    }
    at == numbers.len()
}

#[test]
fn base_query_of_one_step(rt: HostRuntime) -> Result<(), FrameError> {
    let alloc = rt.alloc();
    let safe = example(alloc)?;
    let query = base_query(alloc, &safe, 1)?;
    assert!(rt; query.cnf.variables == 8);
    let clauses = [
        -1, 0, -4, 3, 0, -4, 2, 0, 4, -3, -2, 0, -4, 0, -7, -2, 0, 7, 2, 0, -5, 0, -8, 7, 0, -8, 6,
        0, 8, -7, -6, 0, -3, 0, 7, 0,
    ];
    assert!(rt; has(&query, &clauses));
    Ok(())
}

#[test]
fn step_query_of_two_states(rt: HostRuntime) -> Result<(), FrameError> {
    let alloc = rt.alloc();
    let safe = example(alloc)?;
    let mut facts = Inv::new(alloc);
    facts.push(Fact::Zero(0))?;
    let query = step_query(alloc, &safe, &facts, 1)?;
    assert!(rt; query.cnf.variables == 13);
    let clauses = [
        -1, 0, -4, 3, 0, -4, 2, 0, 4, -3, -2, 0, -4, 0, -7, -2, 0, 7, 2, 0, -5, 0, -8, 7, 0, -8, 6,
        0, 8, -7, -6, 0, -8, 0, -11, -6, 0, 11, 6, 0, -9, 0, -12, 11, 0, -12, 10, 0, 12, -11, -10,
        0, -3, 0, -3, 0, -7, 0, -7, 0, 11, 0, -13, 3, 7, 0, -13, -3, -7, 0, 13, 0,
    ];
    assert!(rt; has(&query, &clauses));
    Ok(())
}

#[test]
fn keep_query_of_one_group(rt: HostRuntime) -> Result<(), FrameError> {
    let alloc = rt.alloc();
    let safe = example(alloc)?;
    let mut facts = Inv::new(alloc);
    facts.push(Fact::Zero(0))?;
    facts.push(Fact::Same(0, 0))?;
    let query = keep_query(alloc, &safe, &facts, 0)?;
    assert!(rt; query.cnf.variables == 10);
    let clauses = [
        -1, 0, -4, 3, 0, -4, 2, 0, 4, -3, -2, 0, -4, 0, -7, -2, 0, 7, 2, 0, -5, 0, -8, 7, 0, -8, 6,
        0, 8, -7, -6, 0, -3, 0, 3, -3, 0, -3, 3, 0, -9, 7, 0, -10, 7, 7, 0, -10, -7, -7, 0, 9, 10,
        0,
    ];
    assert!(rt; has(&query, &clauses));
    Ok(())
}
