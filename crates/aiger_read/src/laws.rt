//! Laws of circuit texts.

ghost use Rattle.std.specs.Prelude.{◌≡◌, ℕ, List};
ghost use Rattle.aig_net.specs.declared.parts.NetParts.{NetParts};
ghost use Rattle.aig_net.specs.Nets.{IsNet};
ghost use Rattle.aiger_body.specs.Outcomes.{Refusal, outcome, refused};
ghost use Rattle.aiger_read.specs.Readings.{IsText};

/// No text is two nets, or both a net and at fault, and each is one of these.
pub fn one_outcome()
    ensures one { (bytes : List ℕ) (a b : NetParts) → IsText bytes a → IsText bytes b → a ≡ b }
    ensures apart { (bytes : List ℕ) (net : NetParts) (refusal : Refusal) → IsText bytes net →
        ¬ (outcome bytes ≡ refused refusal) }
    ensures fault { (bytes : List ℕ) (a b : Refusal) → outcome bytes ≡ refused a →
        outcome bytes ≡ refused b → a ≡ b }
{}

/// What is a text is that of a net.
pub fn text_is_net()
    ensures { (bytes : List ℕ) (net : NetParts) → IsText bytes net → IsNet net }
{}
