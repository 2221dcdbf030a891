//! Why lassos were not judged.

ghost use Rattle.std.specs.Prelude.{◌≡◌};
ghost use Rattle.hy_lasso.specs.declared.error.HoldsError.TheVariants.{Memory as OfMemory, Limit as OfLimit};
ghost use Rattle.hy_lasso.specs.Limits.{joint_limit};

use crate::period::MOST_POSITIONS;
use hy_base::{Kind, Limit, Memory};
use std::error::Error;
use std::fmt;

/// Why lassos were not judged.
#[derive(Clone, Copy, Debug, PartialEq, Eq)]
pub enum HoldsError {
    /// The positions of the joint period are too many.
    Limit(Limit),
    /// Memory ran out.
    Memory,
}

impl HoldsError {
    /// The joint period has more than 4,194,304 positions.
    pub(crate) fn joint() -> HoldsError
        ensures { result ≡ OfLimit joint_limit }
    {
        HoldsError::Limit(Limit {
            kind: Kind::Joint,
            limit: MOST_POSITIONS as u64,
        })
    }
}

impl fmt::Display for HoldsError {
    fn fmt<W: fmt::Write>(&self, f: &mut fmt::Formatter<W>) -> fmt::Result {
        match self {
            HoldsError::Limit(limit) => write!(f, "a joint period past {}", limit.limit),
            HoldsError::Memory => write!(f, "{Memory}"),
        }
    }
}

impl Error for HoldsError {}

impl From<Memory> for HoldsError {
    ghost from_gives = { λ _ e. e ≡ OfMemory };

    fn from(_e: Memory) -> HoldsError {
        HoldsError::Memory
    }
}
