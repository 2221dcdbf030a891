//! `eahyper` decides and judges HyperLTL formulas over lassos.
#![tactic(auto)]

use ea_tool::EaHyper;
use hy_run::run_here;
use std::process::ExitCode;

fn main(rt: HostRuntime) -> ExitCode {
    run_here(&rt, &EaHyper)
}
