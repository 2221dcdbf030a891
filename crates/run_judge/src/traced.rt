//! Lines of runs whose traces are given.

ghost use Rattle.std.specs.Prelude.{◌↔◌, IfOk, IsTrue};
ghost use Rattle.aig_net.specs.Nets.{variables};
ghost use Rattle.sym_tableau.specs.Places.{AreWithin};
ghost use Rattle.run_judge.specs.Traced.{SaysTraced, SayTraced};

use crate::seen::is_trace;
use aig_net::{Net, Signals};
use cert_text::read_run;
use hy_base::M;
use hy_lasso::Lasso;
use hy_text::split_line;
use std::alloc::Global;

/// Whether the text is a line for each trace, that says a run whose trace it is. No line past these
/// is read. In time linear in the text, and in the net and the signals for each step of a run; one
/// run at a time is kept.
pub fn are_traced(
    alloc: Global,
    net: &Net,
    signals: &Signals,
    traces: &[Lasso],
    text: &[u8],
) -> M<bool>
    requires { AreWithin (variables net.now) signals.now }
    ensures { IfOk result
        (λ good. IsTrue good ↔ SayTraced net.now signals.now text.now traces.now) }
{
    let mut left = text;
    for trace in traces {
        let (line, behind) = split_line(left);
        let Some(rest) = behind else {
            return Ok(false);
        };
        if !is_traced(alloc, net, signals, trace, line)? {
            return Ok(false);
        }
        left = rest;
    }
    Ok(left.is_empty())
}

/// Whether the line says a run whose trace this is.
fn is_traced(alloc: Global, net: &Net, signals: &Signals, trace: &Lasso, line: &[u8]) -> M<bool>
    requires { AreWithin (variables net.now) signals.now }
    ensures { IfOk result
        (λ good. IsTrue good ↔ SaysTraced net.now signals.now line.now trace.now) }
{
    match read_run(alloc, line)? {
        Some(run) => is_trace(alloc, net, signals, &run, trace),
        None => Ok(false),
    }
}
