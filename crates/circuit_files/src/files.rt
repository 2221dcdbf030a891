//! Files of circuits.

ghost use Rattle.std.specs.Prelude.{◌≡◌, ◌+◌, ◌≤◌, length, IfOk, IfErr};
ghost use Rattle.hy_base.specs.Shelf.{KeepsShelf};
ghost use Rattle.hy_base.specs.declared.reading.TheConstants.{BYTES_LIMIT};
ghost use Rattle.hy_files.specs.Steps.{Takes, Fails};
ghost use Rattle.circuit_files.specs.Circuits.{IsCircuit, IsNoCircuit, aiger_fault};

use aig_net::Net;
use aiger_read::{AigerError, read_aiger};
use hy_base::{Shelf, read_all};
use hy_files::FileFault;
use std::alloc::Global;

/// The circuit that the file is.
pub fn circuit_in<S: Shelf>(alloc: Global, shelf: &mut S, name: &str) -> Result<Net, FileFault>
    ensures keeps { KeepsShelf S.Shelf shelf.old shelf.new }
    ensures taken { IfOk result (λ net. Takes S.Shelf shelf.old shelf.new name.now
        (λ bytes. IsCircuit bytes net)) }
    ensures variables { IfOk result (λ net.
        net.inputs + length net.latches + length net.ands ≤ 1048576) }
    ensures literals { IfOk result (λ net.
        length net.outputs + length net.constraints + length net.fairs ≤ BYTES_LIMIT) }
    ensures failed { IfErr result (λ fault. Fails S.Shelf shelf.old shelf.new name.now IsNoCircuit
        fault) }
{
    let bytes = read_all(alloc, shelf, name)?;
    match read_aiger(alloc, bytes.as_slice()) {
        Ok(net) => Ok(net),
        Err(error) => Err(aiger_fault(error)),
    }
}

/// The fault of a file that the reader of circuits does not take.
fn aiger_fault(error: AigerError) -> FileFault
    ensures { result ≡ aiger_fault error }
{
    match error {
        AigerError::Bad { kind, byte } => FileFault::Circuit { kind, byte },
        AigerError::Limit(limit) => FileFault::Count {
            kind: limit.kind,
            limit: limit.limit,
        },
        AigerError::Memory => FileFault::Memory,
    }
}
