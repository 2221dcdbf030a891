//! Why nothing was decided.

ghost use Rattle.std.specs.Prelude.{◌≡◌};
ghost use Rattle.ea_circuit.specs.declared.circuit_error.CircuitError.TheVariants.{Memory as OutOfMemory};
ghost use Rattle.ea_circuit.specs.Refused.{IsOfWork, of_plan, of_closure, of_work};

use ea_reduce::ReduceError;
use hy_base::{Kind, Limit, Memory};
use hy_formula::Class;
use invar_find::Kept;
use ltl_closure::ClosureError;
use mc_core::McError;

/// Why nothing was decided. The first cause in this order is given, but for memory, which may be
/// wanted wherever it is taken.
#[derive(Drop)]
pub enum CircuitError {
    /// The formula, the second one of two or the first, is of a class that is not taken.
    Prefix { second: bool, class: Class },
    /// There are too many maps of a job, or members of a closure.
    Limit(Limit),
    /// A query is past a limit: about paths, behind the facts that were kept, or else about facts.
    Query { limit: Limit, kept: Option<Kept> },
    /// Memory ran out.
    Memory,
}

impl From<Memory> for CircuitError {
    ghost from_gives = { λ _ e. e ≡ OutOfMemory };

    fn from(_e: Memory) -> CircuitError {
        CircuitError::Memory
    }
}

impl From<ReduceError> for CircuitError {
    ghost from_gives = { λ given e. e ≡ of_plan given };

    fn from(e: ReduceError) -> CircuitError {
        match e {
            ReduceError::Prefix { second, class } => CircuitError::Prefix { second, class },
            ReduceError::Limit(limit) => CircuitError::Limit(limit),
            ReduceError::Memory => CircuitError::Memory,
        }
    }
}

impl From<ClosureError> for CircuitError {
    ghost from_gives = { λ given e. e ≡ of_closure given };

    fn from(e: ClosureError) -> CircuitError {
        match e {
            ClosureError::Limit => CircuitError::Limit(Limit {
                kind: Kind::Closure,
                limit: Kind::Closure.most(),
            }),
            ClosureError::Memory => CircuitError::Memory,
        }
    }
}

/// The refusal of the work, which is none of a class or a name.
pub fn work_error(e: McError) -> CircuitError
    requires { IsOfWork e }
    ensures { result ≡ of_work e }
{
    match e {
        McError::Limit(limit) => CircuitError::Query { limit, kept: None },
        McError::CnfLimit { kind, limit, kept } => CircuitError::Query {
            limit: Limit { kind, limit },
            kept: Some(kept),
        },
        McError::Memory => CircuitError::Memory,
        McError::Prefix(_) | McError::Name { .. } => unreachable!(),
    }
}
