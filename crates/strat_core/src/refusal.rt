//! Why nothing was checked.

ghost use Rattle.std.specs.Prelude.{◌≡◌};
ghost use Rattle.strat_core.specs.declared.refusal.StrategyError.TheVariants.{Memory as OutOfMemory};
ghost use Rattle.strat_core.specs.Refusing.{CanCome, of_check, of_drive, of_limit};

use hy_base::{Kind, Limit, Memory};
use hy_formula::Class;
use invar_find::Kept;
use mc_core::McError;
use strat_compose::DriveError;

/// Why nothing was checked. The first cause in this order is given, but for memory, which may be
/// wanted wherever it is taken.
#[derive(Drop)]
pub enum StrategyError {
    /// The universal quantifiers don't come first, or not both kinds are there.
    Prefix(Class),
    /// The strategy has not so many inputs and outputs, or has a constraint, a fairness literal or
    /// an uninitialised latch.
    Shape { inputs: u32, outputs: u32 },
    /// The driven formula needs more than 64 names.
    Names(Limit),
    /// The first name of the formula, by its number, that nothing in the circuit has, or that `twice`
    /// stands for different literals.
    Name { name: u8, twice: bool },
    /// The closure of the driven formula has more than 1,024 members.
    Closure(Limit),
    /// A query about facts is past a limit.
    Facts(Limit),
    /// A query about paths is past a limit; these facts were kept.
    CnfLimit { kind: Kind, limit: u64, kept: Kept },
    /// Memory ran out.
    Memory,
}

impl From<Memory> for StrategyError {
    ghost from_gives = { λ _ e. e ≡ OutOfMemory };

    fn from(_e: Memory) -> StrategyError {
        StrategyError::Memory
    }
}

impl From<DriveError> for StrategyError {
    ghost from_gives = { λ given e. e ≡ of_drive given };

    fn from(e: DriveError) -> StrategyError {
        match e {
            DriveError::Prefix(class) => StrategyError::Prefix(class),
            DriveError::Shape { inputs, outputs } => StrategyError::Shape { inputs, outputs },
            DriveError::Limit(limit) => StrategyError::Names(limit),
            DriveError::Name { name, twice } => StrategyError::Name { name, twice },
            DriveError::Memory => StrategyError::Memory,
        }
    }
}

/// What the check of a driven net refuses, which is never the class, and never a name.
pub fn refused(e: McError) -> StrategyError
    requires { CanCome e }
    ensures { result ≡ of_check e }
{
    match e {
        McError::Limit(limit) => past(limit),
        McError::CnfLimit { kind, limit, kept } => StrategyError::CnfLimit { kind, limit, kept },
        McError::Memory => StrategyError::Memory,
        McError::Prefix(_) | McError::Name { .. } => unreachable!(),
    }
}

/// A closure is counted before any query.
fn past(limit: Limit) -> StrategyError
    ensures { result ≡ of_limit limit.kind limit }
{
    match limit.kind {
        Kind::Closure => StrategyError::Closure(limit),
        _ => StrategyError::Facts(limit),
    }
}
