//! Signals that are copied, which no tool does.

use aig_net::{Signal, Signals};
use hy_base::M;
use std::alloc::Global;

/// What equal signals have for a name and a variable, where name 3 has a literal in variable 1.
fn found_in_copy(alloc: Global, name: u8, var: u8) -> M<Option<u32>> {
    let mut signals = Signals::new(alloc);
    signals.push(Signal {
        name: 3,
        var: 1,
        literal: 9,
    })?;
    Ok(signals.copy(alloc)?.find(name, var))
}

#[test]
fn copies_have_the_same_literals(rt: HostRuntime) {
    assert!(rt; matches!(found_in_copy(rt.alloc(), 3, 1), Ok(Some(9))));
    assert!(rt; matches!(found_in_copy(rt.alloc(), 3, 0), Ok(None)));
}
