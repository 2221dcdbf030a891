//! The runs of the universal copies in a run of a driven net.

ghost use Rattle.std.specs.Prelude.{◌≡◌, ◌<◌, IfOk};
ghost use Rattle.hy_base.specs.Rows.{listed};
ghost use Rattle.strat_compose.specs.Runs.{HasCopies, universal_run as universal_run_of};

use aig_net::{Net, Run, RunList, own_row, own_rows};
use hy_base::{List, M};
use std::alloc::Global;

/// The runs of the `m` universal copies of a circuit, in a run of a net that drives it: each as long
/// as that run. In time linear in them.
#[tactic(auto, using(hy_base::proofs::Listed::listed_next))]
pub fn universal_runs(alloc: Global, net: &Net, m: u8, run: &Run) -> M<RunList>
    requires { HasCopies net.now m run.now }
    ensures { IfOk result (λ made. made ≡ listed 0 m (universal_run_of net.now m run.now)) }
{
    let mut made = List::new(alloc);
    for c in 0..m {
        made.push(universal_run(alloc, net, m, c, run)?)?;
    }
    Ok(made)
}

/// The run of copy `c` of `m`.
fn universal_run(alloc: Global, net: &Net, m: u8, c: u8, run: &Run) -> M<Run>
    requires copies { HasCopies net.now m run.now }
    requires copy { c < m }
    ensures { IfOk result (λ made. made ≡ universal_run_of net.now m run.now c) }
{
    let (copies, copy) = (usize::from(m), usize::from(c));
    let latches = net.latches().len();
    let inputs = net.inputs() as usize;
    Ok(Run {
        first: own_row(alloc, run.first.as_slice(), latches, copies, copy)?,
        stem: own_rows(alloc, run.stem.as_slice(), inputs, copies, copy)?,
        cycle: own_rows(alloc, run.cycle.as_slice(), inputs, copies, copy)?,
    })
}
