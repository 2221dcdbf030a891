//! `hycheck ea FORMULA OUT`, and so on: whether what a tool printed with its proof is good for the
//! claim, and so shows what it says.
#![tactic(auto)]

use hy_check::HyCheck;
use hy_run::run_here;
use std::process::ExitCode;

fn main(rt: HostRuntime) -> ExitCode {
    run_here(&rt, &HyCheck)
}
