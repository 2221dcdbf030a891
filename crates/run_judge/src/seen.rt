//! What is seen of one run.

ghost use Rattle.std.specs.Prelude.{◌↔◌, IfOk, IsTrue};
ghost use Rattle.aig_net.specs.Nets.{variables};
ghost use Rattle.sym_tableau.specs.Places.{AreWithin};
ghost use Rattle.wit_lasso.specs.Seeing.{IsTraceOf};

use aig_net::{Net, Run, Signals, one_execution, simulate};
use hy_base::M;
use hy_lasso::Lasso;
use std::alloc::Global;
use wit_lasso::visible_in;

/// Whether the run is that of a lasso execution, and the lasso the normal form of what is seen of
/// it. The run is simulated once: in time linear in the net and in the signals for each step.
pub fn is_trace(alloc: Global, net: &Net, signals: &Signals, run: &Run, trace: &Lasso) -> M<bool>
    requires { AreWithin (variables net.now) signals.now }
    ensures { IfOk result
        (λ good. IsTrue good ↔ IsTraceOf net.now signals.now run.now trace.now) }
{
    net.variables(); // what each net keeps
    trace.cycle(); // what each lasso keeps
    one_execution();
    let Some(values) = simulate(alloc, net, run)? else {
        return Ok(false);
    };
    let seen = visible_in(alloc, &values, signals)?;
    seen.cycle(); // what each lasso keeps
    Ok(seen == *trace)
}
