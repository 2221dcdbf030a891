//! Which quantifiers a prefix has, and in which order.

ghost use Rattle.std.specs.Prelude.{◌≡◌};
ghost use Rattle.hy_formula.specs.Classes.{class_of, behind};

use crate::prefix::Quant;

/// Which quantifiers a formula has.
#[derive(Clone, Copy, Debug, PartialEq, Eq)]
pub enum Class {
    /// Exists alone.
    Exists,
    /// Forall alone.
    Forall,
    /// Both, and each exists before each forall.
    ExistsForall,
    /// Both, and some forall before some exists.
    Other,
}

impl Class {
    /// The class of a prefix.
    pub(crate) fn of(quants: &[Quant]) -> Class
        ensures { result ≡ class_of quants.now }
    {
        let past_exists = past(quants, Quant::Exists);
        if past_exists.is_empty() {
            Class::Exists
        } else if past(quants, Quant::Forall).is_empty() {
            Class::Forall
        } else if past(past_exists, Quant::Forall).is_empty() {
            Class::ExistsForall
        } else {
            Class::Other
        }
    }
}

/// What stands behind the first quantifiers, as far as they are `quant`.
fn past(quants: &[Quant], quant: Quant) -> &[Quant]
    ensures { result.now ≡ behind quant quants.now }
{
    match quants {
        [first, rest @ ..] if *first == quant => past(rest, quant),
        _ => quants,
    }
}
