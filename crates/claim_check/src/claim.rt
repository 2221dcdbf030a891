//! What a certificate is about.

ghost use Rattle.std.specs.Prelude.{◌≡◌};
ghost use Rattle.claim_check.specs.Claims.{claim_of, question_of};

use aig_net::Net;
use cert_text::Question;
use hy_formula::Formula;

/// What a certificate is to show, or to show false.
#[derive(Clone, Copy)]
pub enum Claim<'a> {
    /// That a formula is satisfiable.
    Ea(&'a Formula),
    /// That the first formula implies the second.
    Implies(&'a Formula, &'a Formula),
    /// That each formula implies the other.
    Equivalent(&'a Formula, &'a Formula),
    /// That a circuit satisfies a formula.
    Mc(&'a Net, &'a Formula),
}

impl Claim<'_> {
    /// What was asked.
    pub fn question(&self) -> Question
        ensures { result ≡ question_of (claim_of self.now) }
    {
        match self {
            Claim::Ea(_) => Question::Formula,
            Claim::Implies(_, _) => Question::Implication,
            Claim::Equivalent(_, _) => Question::Equivalence,
            Claim::Mc(_, _) => Question::Circuit,
        }
    }
}
