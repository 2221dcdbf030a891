//! `mchyper CIRCUIT FORMULA` checks a formula on the executions of a circuit.
#![tactic(auto)]

use hy_run::run_here;
use mc_tool::McHyper;
use std::process::ExitCode;

fn main(rt: HostRuntime) -> ExitCode {
    run_here(&rt, &McHyper)
}
