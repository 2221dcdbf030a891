//! The check of a whole log, which no tool calls.

use chain_check::{Cnf, Learned, Log, check};
use hy_base::{List, M};
use std::alloc::Global;

/// A log that learns `1` from the first clause and another one.
fn log_of(alloc: Global, other: u32) -> M<Log> {
    let clause = List::from_vec(vec![in alloc; 1]?);
    let chain = List::from_vec(vec![in alloc; 1, other]?);
    Ok(List::from_vec(vec![in alloc; Learned { clause, chain }]?))
}

/// Whether that log passes for `1 2` and `1 -2`.
fn passes(alloc: Global, other: u32) -> M<bool> {
    let log = log_of(alloc, other)?;
    let mut cnf = Cnf::new(alloc, 2)?;
    cnf.add_literals(&[1, 2])?;
    cnf.add_literals(&[1, -2])?;
    check(alloc, &cnf, &log)
}

#[test]
fn checks_one_step(rt: HostRuntime) {
    assert!(rt; matches!(passes(rt.alloc(), 2), Ok(true)));
    assert!(rt; matches!(passes(rt.alloc(), 3), Ok(false)));
}
