//! `lab search FILE`.

ghost use Rattle.std.specs.Prelude.{◌≡◌, ◌<◌};

use crate::files::text_of;
use crate::graphs::graph_of;
use anyhow::{Result, bail};
use fair_search::{Found, search};
use hy_base::Steps;
use rank_check::Graph;
use std::marker::Brand;
use std::process::ExitCode;
use std::sync::ledger::{Blank, Ledger};
use std::time::Instant;

/// Searches the graph of a file for a fair walk, and prints what was found and the seconds that the
/// search took. The status is 0 for a walk, and 1 for ranks.
pub fn run(rt: &HostRuntime, words: &[String]) -> Result<ExitCode> {
    let [file] = words else {
        bail!("the words are: search FILE");
    };
    let graph = graph_in(rt, file.as_str())?;
    report::<Brand>(rt, &graph, Blank::new(1))
}

/// The graph of a file.
fn graph_in(rt: &HostRuntime, file: &str) -> Result<Graph> {
    let text = text_of(rt, file)?;
    graph_of(rt.alloc(), text.as_str())
}

/// Searches, with a counter of steps of its own.
fn report<L: Ledger>(rt: &HostRuntime, graph: &Graph, blank: Blank) -> Result<ExitCode>
    requires name { blank.name ≡ L.name }
    requires parts { blank.parts ≡ L.parts }
    requires some { 0 < blank.parts }
{
    let mut steps = Steps::<L>::new(blank);
    let start = Instant::now(rt)?;
    let found = search(rt.alloc(), graph, &mut steps)?;
    let seconds = start.elapsed(rt)?.as_secs_f64();
    print_found(rt, &found, seconds)
}

/// Prints what was found and the seconds that it took, and gives the status for it.
fn print_found(rt: &HostRuntime, found: &Found, seconds: f64) -> Result<ExitCode> {
    let status = match found {
        Found::Lasso(lasso) => {
            println!(rt; "walk {} {}", lasso.stem.len(), lasso.cycle.len())?;
            0
        }
        Found::Ranks(ranks) => {
            println!(rt; "ranks {}", ranks.reasons.len())?;
            1
        }
    };
    println!(rt; "seconds {seconds:.3}")?;
    Ok(ExitCode::from(status))
}
