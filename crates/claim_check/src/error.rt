//! Why a certificate was not judged.

ghost use Rattle.std.specs.Prelude.{◌≡◌};
ghost use Rattle.claim_check.specs.declared.error.CertError.TheVariants.{Limit as OfLimit, Memory as OutOfMemory};
ghost use Rattle.hy_lasso.specs.Limits.{joint_limit};
ghost use Rattle.claim_check.specs.Errors.{of_closure, of_frames, of_names, of_plan};

use cnf_frames::FrameError;
use ea_reduce::ReduceError;
use hy_base::{Kind, Limit, Memory};
use hy_formula::Class;
use ltl_closure::ClosureError;
use net_names::NameError;
use std::error::Error;
use std::fmt;

/// Why a certificate was not judged.
#[derive(Clone, Copy, Debug, PartialEq, Eq)]
pub enum CertError {
    /// The formula, the second one of two or the first, is of a class that is not taken.
    Prefix { second: bool, class: Class },
    /// There are too many maps of a job, members of a closure, or positions of the joint period; or
    /// a query of a proof by induction has too many variables or literals.
    Limit(Limit),
    /// The first name of the formula, by its number, that nothing in the circuit has, or that `twice`
    /// stands for different literals.
    Name { name: u8, twice: bool },
    /// The bytes are no certificate text: they go wrong at this line, from 1.
    Text { line: u32 },
    Memory,
}

impl CertError {
    /// The joint period has more than 4,194,304 positions.
    pub(crate) fn joint() -> CertError
        ensures { result ≡ OfLimit joint_limit }
    {
        CertError::Limit(Limit {
            kind: Kind::Joint,
            limit: Kind::Joint.most(),
        })
    }
}

impl fmt::Display for CertError {
    fn fmt<W: fmt::Write>(&self, f: &mut fmt::Formatter<W>) -> fmt::Result {
        match self {
            CertError::Prefix { .. } => write!(f, "quantifiers of a class that is not taken"),
            CertError::Limit(limit) => write!(f, "a limit of {} is passed", limit.limit),
            CertError::Name { name, .. } => write!(f, "name {name} stands for no literal"),
            CertError::Text { line } => write!(f, "no certificate at line {line}"),
            CertError::Memory => write!(f, "{Memory}"),
        }
    }
}

impl Error for CertError {}

impl From<Memory> for CertError {
    ghost from_gives = { λ _ e. e ≡ OutOfMemory };

    fn from(_e: Memory) -> CertError {
        CertError::Memory
    }
}

impl From<ReduceError> for CertError {
    ghost from_gives = { λ given e. e ≡ of_plan given };

    fn from(e: ReduceError) -> CertError {
        match e {
            ReduceError::Prefix { second, class } => CertError::Prefix { second, class },
            ReduceError::Limit(limit) => CertError::Limit(limit),
            ReduceError::Memory => CertError::Memory,
        }
    }
}

impl From<ClosureError> for CertError {
    ghost from_gives = { λ given e. e ≡ of_closure given };

    fn from(e: ClosureError) -> CertError {
        match e {
            ClosureError::Limit => CertError::Limit(Limit {
                kind: Kind::Closure,
                limit: Kind::Closure.most(),
            }),
            ClosureError::Memory => CertError::Memory,
        }
    }
}

impl From<NameError> for CertError {
    ghost from_gives = { λ given e. e ≡ of_names given };

    fn from(e: NameError) -> CertError {
        match e {
            NameError::Bad { name, twice } => CertError::Name { name, twice },
            NameError::Memory => CertError::Memory,
        }
    }
}

impl From<FrameError> for CertError {
    ghost from_gives = { λ given e. e ≡ of_frames given };

    fn from(e: FrameError) -> CertError {
        match e {
            FrameError::Limit(limit) => CertError::Limit(limit),
            FrameError::Memory => CertError::Memory,
        }
    }
}
