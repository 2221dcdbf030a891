//! `lab aag FILE`, `lab aig FILE` and `lab safe FILE FORMULA`.

use crate::files::text_of;
use aig_net::Net;
use aiger_print::{print_aag, print_aig};
use aiger_read::{AigerError, read_aiger};
use anyhow::{Result, bail};
use bench_tools::nets_of;
use hy_base::{BYTES_LIMIT, DiskShelf, FileError, M, Text, read_all};
use std::alloc::Global;
use std::io::Write;
use std::process::ExitCode;

/// Why a file gives no net.
pub enum Refused {
    File(FileError),
    Circuit(AigerError),
}

impl From<FileError> for Refused {
    fn from(error: FileError) -> Refused {
        Refused::File(error)
    }
}

impl From<AigerError> for Refused {
    fn from(error: AigerError) -> Refused {
        Refused::Circuit(error)
    }
}

/// Prints the net of a file in one of the forms.
pub fn print(rt: &HostRuntime, words: &[String], binary: bool) -> Result<ExitCode> {
    let [file] = words else {
        bail!("the words are: aag FILE, or aig FILE");
    };
    match net_of(rt, file.as_str()) {
        Ok(net) => print_net(rt, &net, binary),
        Err(refused) => tell(rt, refused),
    }
}

fn print_net(rt: &HostRuntime, net: &Net, binary: bool) -> Result<ExitCode> {
    let text = net_text(rt.alloc(), net, binary)?;
    rt.stdout().write_all(text.as_slice())?;
    Ok(ExitCode::from(0))
}

fn net_text(alloc: Global, net: &Net, binary: bool) -> M<Text> {
    if binary {
        print_aig(alloc, net)
    } else {
        print_aag(alloc, net)
    }
}

/// Prints the safe net of a formula on the net of a file.
pub fn safe(rt: &HostRuntime, words: &[String]) -> Result<ExitCode> {
    let [file, formula] = words else {
        bail!("the words are: safe FILE FORMULA");
    };
    let text = text_of(rt, formula.as_str())?;
    match net_of(rt, file.as_str()) {
        Ok(net) => print_safe(rt, &net, text.as_str()),
        Err(refused) => tell(rt, refused),
    }
}

fn print_safe(rt: &HostRuntime, net: &Net, formula: &str) -> Result<ExitCode> {
    let nets = nets_of(rt.alloc(), net, formula)?;
    print_net(rt, &nets.safe.net, false)
}

/// The net of a file.
pub fn net_of(rt: &HostRuntime, file: &str) -> Result<Net, Refused> {
    let content = read_all(rt.alloc(), &mut DiskShelf::new(rt), file)?;
    if content.len() > BYTES_LIMIT {
        return Err(Refused::File(FileError::Limit));
    }
    Ok(read_aiger(rt.alloc(), content.as_slice())?)
}

/// Says on standard error why there is no net, and gives the status for it.
pub fn tell(rt: &HostRuntime, refused: Refused) -> Result<ExitCode> {
    match refused {
        Refused::File(error) => tell_file(rt, error),
        Refused::Circuit(error) => tell_circuit(rt, error),
    }
}

fn tell_file(rt: &HostRuntime, error: FileError) -> Result<ExitCode> {
    match error {
        FileError::OpenFailed | FileError::ReadFailed => {
            eprintln!(rt; "the file does not read")?;
            Ok(ExitCode::from(3))
        }
        FileError::Limit => {
            eprintln!(rt; "error E5: bytes {BYTES_LIMIT}")?;
            Ok(ExitCode::from(5))
        }
        FileError::Memory => tell_memory(rt),
    }
}

fn tell_circuit(rt: &HostRuntime, error: AigerError) -> Result<ExitCode> {
    match error {
        AigerError::Bad { kind, byte } => {
            eprintln!(rt; "error E11: {kind} byte {byte}")?;
            Ok(ExitCode::from(2))
        }
        AigerError::Limit(limit) => {
            eprintln!(rt; "error E5: variables {}", limit.limit)?;
            Ok(ExitCode::from(5))
        }
        AigerError::Memory => tell_memory(rt),
    }
}

fn tell_memory(rt: &HostRuntime) -> Result<ExitCode> {
    eprintln!(rt; "error: memory")?;
    Ok(ExitCode::from(6))
}
