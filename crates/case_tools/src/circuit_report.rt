//! What the reader of circuits answers, beside what was expected.

use crate::circuits::{CircuitCase, Made};
use crate::runs::{rows_text, run_of};
use aig_net::{Net, Run, simulate};
use aiger_print::{print_aag, print_aig};
use aiger_read::{AigerError, read_aiger};
use anyhow::{Result, bail, ensure};
use bench_tools::nets_of;
use hy_base::{BYTES_LIMIT, Text};
use self_compose::{compose, copies_are_as_large};
use std::alloc::Global;

/// The most variables of a net, with variable 0.
const ROOM: u64 = 1 << 31;

/// A net in both forms.
#[derive(Drop)]
struct Printed {
    aag: Text,
    aig: Text,
}

/// Tries a case, and prints what differs behind its name. Says whether nothing does.
pub(crate) fn report(rt: &HostRuntime, case: &CircuitCase) -> Result<bool> {
    ensure!(case.text.len() <= BYTES_LIMIT, "the text is too long");
    match read_aiger(rt.alloc(), case.text.as_slice()) {
        Ok(net) => judge(rt, case, &net),
        Err(error) => tell_refusal(rt, case, error),
    }
}

/// Prints what differs in the net of a text, and says whether nothing does.
fn judge(rt: &HostRuntime, case: &CircuitCase, net: &Net) -> Result<bool> {
    tell(rt, case, net_differs(rt.alloc(), case, net)?)
}

/// Prints what differs behind the name of a case, and says whether nothing does.
fn tell(rt: &HostRuntime, case: &CircuitCase, said: &str) -> Result<bool> {
    if said.is_empty() {
        return Ok(true);
    }
    println!(rt; "{}: {said}", case.name)?;
    Ok(false)
}

/// Prints why there is no net, unless that is expected, and says whether it is.
fn tell_refusal(rt: &HostRuntime, case: &CircuitCase, error: AigerError) -> Result<bool> {
    let refusal = refusal_text(rt.alloc(), error)?;
    if refusal.as_str() == case.refusal.as_str() {
        return Ok(true);
    }
    tell(rt, case, refusal.as_str())
}

/// The kind and the byte of a fault, or the limit.
fn refusal_text(alloc: Global, error: AigerError) -> Result<String> {
    Ok(match error {
        AigerError::Bad { kind, byte } => format!(in alloc; "{kind} {byte}")?,
        AigerError::Limit(_) => String::from_str(alloc, "limit")?,
        AigerError::Memory => String::from_str(alloc, "memory")?,
    })
}

/// What differs in the net of a text, or in what the case makes of it; empty where nothing does.
fn net_differs(alloc: Global, case: &CircuitCase, net: &Net) -> Result<&'static str> {
    match &case.made {
        Made::Own => differs(alloc, case, net),
        Made::Copies(n) => differs(alloc, case, &copies(alloc, net, *n)?),
        Made::Oracles(formula) => {
            let nets = nets_of(alloc, net, formula.as_str())?;
            differs(alloc, case, &nets.whole)
        }
        Made::Safe(formula) => {
            let nets = nets_of(alloc, net, formula.as_str())?;
            differs(alloc, case, &nets.safe.net)
        }
    }
}

/// `n` copies of a net.
fn copies(alloc: Global, net: &Net, n: u8) -> Result<Net> {
    let wanted = u64::from(net.variables()) * u64::from(n);
    ensure!(n > 0 && wanted <= ROOM, "there is no room for {n} copies");
    copies_are_as_large();
    Ok(compose(alloc, net, n)?)
}

/// What differs in a net, empty where nothing does.
fn differs(alloc: Global, case: &CircuitCase, net: &Net) -> Result<&'static str> {
    if !case.refusal.is_empty() {
        return Ok("a net");
    }
    if counts_differ(alloc, case, net)? {
        return Ok("other counts");
    }
    let printed = print_both(alloc, net)?;
    let said = text_differs(alloc, case, &printed)?;
    if said.is_empty() && !runs_right(alloc, case, net)? {
        return Ok("another run");
    }
    Ok(said)
}

/// Whether counts are expected, and they are others.
fn counts_differ(alloc: Global, case: &CircuitCase, net: &Net) -> Result<bool> {
    let given = counts_text(alloc, net)?;
    Ok(!case.counts.is_empty() && case.counts.as_str() != given.as_str())
}

/// How many inputs, latches and fairness literals there are.
fn counts_text(alloc: Global, net: &Net) -> Result<String> {
    Ok(format!(in alloc;
        "{} {} {}",
        net.inputs(),
        net.latches().len(),
        net.fairs().len()
    )?)
}

/// Prints a net in both forms.
fn print_both(alloc: Global, net: &Net) -> Result<Printed> {
    let aag = print_aag(alloc, net)?;
    let aig = print_aig(alloc, net)?;
    Ok(Printed { aag, aig })
}

/// What differs in the texts of a net, empty where nothing does.
fn text_differs(alloc: Global, case: &CircuitCase, printed: &Printed) -> Result<&'static str> {
    if is_another(&case.aag, &printed.aag) {
        return Ok("another text in ASCII");
    }
    if is_another(&case.aig, &printed.aig) {
        return Ok("another text in the binary form");
    }
    if !reads_back(alloc, &printed.aag, &printed.aag)? {
        return Ok("the text in ASCII reads back as another net");
    }
    if !reads_back(alloc, &printed.aig, &printed.aag)? {
        return Ok("the text in the binary form reads back as another net");
    }
    Ok("")
}

/// Whether a text is expected, and it is another one.
fn is_another(wanted: &Text, given: &Text) -> bool {
    !wanted.is_empty() && wanted.as_slice() != given.as_slice()
}

/// Whether the net of a text is printed like this.
fn reads_back(alloc: Global, text: &Text, aag: &Text) -> Result<bool> {
    ensure!(text.len() <= BYTES_LIMIT, "the text is too long");
    match read_aiger(alloc, text.as_slice()) {
        Ok(net) => is_printed(alloc, &net, aag),
        Err(error) => bail!("a printed net is refused: {error}"),
    }
}

/// Whether a net is printed like this.
fn is_printed(alloc: Global, net: &Net, aag: &Text) -> Result<bool> {
    let given = print_aag(alloc, net)?;
    Ok(given.as_slice() == aag.as_slice())
}

/// Whether each run gives the rows that are expected.
fn runs_right(alloc: Global, case: &CircuitCase, net: &Net) -> Result<bool> {
    for line in &case.runs {
        if !is_run(alloc, net, line.as_str())? {
            return Ok(false);
        }
    }
    Ok(true)
}

/// Whether the run of a line gives the rows behind it.
fn is_run(alloc: Global, net: &Net, line: &str) -> Result<bool> {
    let mut words = line.split(' ');
    let (Some(first), Some(stem), Some(cycle), Some(rows)) = (
        words.next(),
        words.next(),
        words.next(),
        words.next(),
    ) else {
        bail!("a run has four words");
    };
    let run = run_of(alloc, first, stem, cycle)?;
    Ok(values_text(alloc, net, &run)?.as_str() == rows)
}

/// The rows of values of a run, or that it is none.
fn values_text(alloc: Global, net: &Net, run: &Run) -> Result<String> {
    match simulate(alloc, net, run)? {
        Some(values) => Ok(rows_text(alloc, &values)?),
        None => Ok(String::from_str(alloc, "no-lasso")?),
    }
}
