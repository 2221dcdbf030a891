//! `rvhyper SPECS TRACES` monitors a file of finite traces.
#![tactic(auto)]

use hy_run::run_here;
use rv_tool::RvHyper;
use std::process::ExitCode;

fn main(rt: HostRuntime) -> ExitCode {
    run_here(&rt, &RvHyper)
}
