//! Tries the cases of the files that its arguments name: commands of the four tools and of the checker
//! over files and streams in memory, and circuits. It prints a line for each file, and before it what
//! differs in each case whose answer is another than the expected one. `case_tools` says how a case is
//! written.
#![tactic(auto)]

use anyhow::Result;
use case_tools::{PieceShelf, Tools, run_files};
use hy_base::MemSink;
use hy_check::run_check;
use hy_top::{Tool, run};
use rv_watch::watch;
use std::alloc::Global;

/// The tools and the checker. Nothing is promised of them here: what a run promises is proved, and the
/// cases say what is expected.
struct Proved;

impl Tools for Proved {
    fn status_of(
        alloc: Global,
        name: &str,
        words: &[String],
        shelf: &mut PieceShelf,
        out: &mut MemSink,
        err: &mut MemSink,
    ) -> Option<u8> {
        if name == "hycheck" {
            return Some(run_check(alloc, words, shelf, out, err).status);
        }
        if name == "rvwatch" {
            return Some(watch(alloc, words, shelf, out, err).status);
        }
        let tool = tool_of(name)?;
        Some(run(alloc, tool, words, shelf, out, err).status)
    }
}

/// The tool of this name.
fn tool_of(name: &str) -> Option<Tool> {
    match name {
        "eahyper" => Some(Tool::EaHyper),
        "rvhyper" => Some(Tool::RvHyper),
        "mchyper" => Some(Tool::McHyper),
        _ => None,
    }
}

fn main(rt: HostRuntime) -> Result<()> {
    run_files::<Proved>(&rt)
}
