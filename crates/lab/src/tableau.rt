//! `lab tableau STATES FILE`.

ghost use Rattle.std.specs.Prelude.{◌*◌, ◌-◌, ◌≤◌, ◌<◌, ◌^◌, length, IfOk};

use crate::files::text_of;
use anyhow::{Result, bail, ensure};
use hy_bits::each_width;
use hy_formula::NameTable;
use hy_read::read_formula;
use ltl_closure::Closure;
use ltl_tableau::{Tableau, TableauError};
use rank_check::Graph;
use std::alloc::Global;
use std::process::ExitCode;
use std::time::Instant;

/// The most quantifiers of a formula.
const QUANTIFIERS: u8 = 8;

/// Builds the tableau of the body of a formula, which is to hold with each variable standing for
/// itself, and prints how many members, branches and edges there are, and the seconds that it took.
/// Where more than STATES branches are reachable it says so. Statuses: 0 and 1.
pub fn run(rt: &HostRuntime, words: &[String]) -> Result<ExitCode> {
    let [states, file] = words else {
        bail!("the words are: tableau STATES FILE");
    };
    let states = states_of(states.as_str())?;
    let c = closure_in(rt, file.as_str())?;
    report(rt, &c, states)
}

/// The number of states that a word stands for.
fn states_of(word: &str) -> Result<u32>
    ensures { IfOk result (λ states. states < 2 ^ 32 - 1) }
{
    match word.parse::<u32>() {
        Ok(states) if states < u32::MAX => Ok(states),
        _ => bail!("the number of states is below 4294967295"),
    }
}

/// The closure of the body of the formula of a file.
fn closure_in(rt: &HostRuntime, file: &str) -> Result<Closure> {
    let text = text_of(rt, file)?;
    closure_of(rt.alloc(), text.as_str().as_bytes())
}

/// The closure of the body of the formula of a text.
fn closure_of(alloc: Global, text: &[u8]) -> Result<Closure> {
    ensure!(text.len() <= u32::MAX as usize, "the file is too long");
    match read_formula(alloc, text, QUANTIFIERS, &mut NameTable::new(alloc)?) {
        Ok(formula) => {
            let variables = formula.prefix.len() as u8;
            Ok(Closure::of_body(alloc, &formula.body, variables, true)?)
        }
        Err(error) => bail!("no formula: {error:?}"),
    }
}

/// Builds the tableau of a closure at its least width, and prints what it comes to.
fn report(rt: &HostRuntime, c: &Closure, states: u32) -> Result<ExitCode>
    requires { states < 2 ^ 32 - 1 }
{
    println!(rt; "members {}", c.len())?;
    each_width!(c.len(), build(rt, c, states))
}

/// Builds the tableau of a closure at one width, and reports it.
fn build<const W: usize>(rt: &HostRuntime, c: &Closure, states: u32) -> Result<ExitCode>
    requires width { W ≤ 16 }
    requires members { length c.now.nodes ≤ 64 * W }
    requires states { states < 2 ^ 32 - 1 }
{
    let start = Instant::now(rt)?;
    match Tableau::<W>::build(rt.alloc(), c, states) {
        Ok(tableau) => {
            let seconds = start.elapsed(rt)?.as_secs_f64();
            print_sizes(rt, tableau.count(), tableau.graph(), seconds)
        }
        Err(TableauError::States) => {
            println!(rt; "more than {states} branches")?;
            Ok(ExitCode::from(1))
        }
        Err(error) => bail!("no tableau: {error:?}"),
    }
}

/// Prints how many branches and edges a tableau has, and the seconds that it took.
fn print_sizes(rt: &HostRuntime, branches: u32, graph: &Graph, seconds: f64) -> Result<ExitCode> {
    println!(rt; "branches {branches}")?;
    println!(rt; "edges {}", edges_of(graph))?;
    println!(rt; "seconds {seconds:.3}")?;
    Ok(ExitCode::from(0))
}

/// How many edges a graph has.
fn edges_of(graph: &Graph) -> u64 {
    let mut edges: u64 = 0;
    for node in 0..graph.nodes() {
        edges = edges.saturating_add(u64::from(graph.group_len(graph.group_of(node))));
    }
    edges
}
