//! `rvwatch SPECS` monitors the finite traces that standard input brings, while they come.
#![tactic(auto)]

use rv_watch::watch_here;
use std::process::ExitCode;

fn main(rt: HostRuntime) -> ExitCode {
    watch_here(&rt)
}
