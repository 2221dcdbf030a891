//! The plain function of the meaning on finite traces, and the plain readers of events.

ghost use Rattle.std.specs.Prelude.{◌≤◌, length};

use crate::letters::trace_of;
use hy_bits::LetterMask;
use hy_finite::{Lengths, TraceList, check_events, finite_holds, read_event, read_events};
use hy_formula::{Atom, Body, NameTable};
use std::alloc::Global;
use std::test::Fail;

/// A trace of one empty letter, and one of two.
fn one_and_two(alloc: Global) -> Result<TraceList, Fail> {
    let none = LetterMask::empty();
    let mut list = TraceList::new(alloc);
    list.push(trace_of(alloc, &[none])?)?;
    list.push(trace_of(alloc, &[none, none])?)?;
    Ok(list)
}

/// Whether `X !a_q` holds of two of those traces.
fn next_holds(alloc: Global, pick: [u32; 2], lengths: Lengths) -> Result<bool, Fail> {
    let list = one_and_two(alloc)?;
    if list.len() != 2 || pick[0] > 1 || pick[1] > 1 {
        return Err("no such trace")?;
    }
    let atom = Box::new(alloc, Body::Atom(Atom { name: 0, var: 1 }))?;
    let never = Box::new(alloc, Body::Not(atom))?;
    Ok(finite_holds(alloc, &Body::Next(never), &list, &pick, lengths)?)
}

#[test]
fn next_ends_with_the_judged_length(rt: HostRuntime) -> Result<(), Fail> {
    for (pick, lengths, wanted) in [
        ([0, 0], Lengths::Min, false),
        ([0, 0], Lengths::Pad, false),
        ([1, 1], Lengths::Min, true),
        ([1, 1], Lengths::Pad, true),
        ([1, 0], Lengths::Min, false),
        ([1, 0], Lengths::Pad, true),
    ] {
        assert!(rt; next_holds(rt.alloc(), pick, lengths)? == wanted);
    }
    Ok(())
}

/// The line of the last event of a file.
fn last_line(alloc: Global, file: &[u8]) -> Result<Option<u32>, Fail>
    requires { length file.now ≤ 100 }
{
    check_events(alloc, file)?;
    let events = read_events(alloc, file, &NameTable::new(alloc)?)?;
    match events.as_slice() {
        [.., last] => Ok(Some(last.line)),
        [] => Ok(None),
    }
}

/// Whether a line says an event.
fn says_event(alloc: Global, line: &[u8]) -> Result<bool, Fail> {
    Ok(read_event(alloc, line, &NameTable::new(alloc)?)?.is_some())
}

#[test]
fn reads_events(rt: HostRuntime) -> Result<(), Fail> {
    let file = b"# none\n{go}\n\n!save\n{};{}";
    assert!(rt; last_line(rt.alloc(), file)? == Some(5));
    assert!(rt; says_event(rt.alloc(), b"@0end")?);
    Ok(())
}
