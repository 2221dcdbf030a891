//! Why nothing was checked.

ghost use Rattle.std.specs.Prelude.{◌≡◌};
ghost use Rattle.mc_core.specs.declared.mc_error.McError.TheVariants.{Memory as OutOfMemory};
ghost use Rattle.mc_core.specs.Answers.{of_closure, of_names};

use hy_base::{Kind, Limit, Memory};
use hy_formula::Class;
use invar_find::Kept;
use ltl_closure::ClosureError;
use net_names::NameError;

/// Why nothing was checked. The first cause in this order is given, but for memory, which may be
/// wanted wherever it is taken.
#[derive(Drop)]
pub enum McError {
    /// The quantifiers are neither all existential nor all universal.
    Prefix(Class),
    /// The closure has more than 1,024 members; or, behind the names, a query about facts is past a
    /// limit.
    Limit(Limit),
    /// A query about paths is past a limit; these facts were kept.
    CnfLimit { kind: Kind, limit: u64, kept: Kept },
    /// The first name of the formula, by its number, that nothing in the circuit has, or that `twice`
    /// stands for different literals.
    Name { name: u8, twice: bool },
    /// Memory ran out.
    Memory,
}

impl From<Memory> for McError {
    ghost from_gives = { λ _ e. e ≡ OutOfMemory };

    fn from(_e: Memory) -> McError {
        McError::Memory
    }
}

impl From<ClosureError> for McError {
    ghost from_gives = { λ given e. e ≡ of_closure given };

    fn from(e: ClosureError) -> McError {
        match e {
            ClosureError::Limit => McError::Limit(Limit {
                kind: Kind::Closure,
                limit: Kind::Closure.most(),
            }),
            ClosureError::Memory => McError::Memory,
        }
    }
}

impl From<NameError> for McError {
    ghost from_gives = { λ given e. e ≡ of_names given };

    fn from(e: NameError) -> McError {
        match e {
            NameError::Bad { name, twice } => McError::Name { name, twice },
            NameError::Memory => McError::Memory,
        }
    }
}
