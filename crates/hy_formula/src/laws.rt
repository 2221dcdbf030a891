//! Laws of the meaning of bodies and of their normal forms.

ghost use Rattle.std.specs.Prelude.{◌≡◌, ◌↔◌, ◌<◌, ◌++◌, ℕ, Bool, List, IsTrue, map};
ghost use Rattle.hy_formula.specs.Trees.{Tree, not};
ghost use Rattle.hy_formula.specs.Temporal.{Span, Words, Within, below, endless, SatisfiesAt, IsDecided, Repeats};
ghost use Rattle.hy_formula.specs.declared.prefix.Quant.{Quant};
ghost use Rattle.hy_formula.specs.Quantifiers.{Quantified, MatchBothWays, SayTheSame, turned, repeated};
ghost use Rattle.hy_formula.specs.declared.prefix.Quant.TheVariants as quant;
ghost use Rattle.hy_formula.specs.declared.classes.Class.TheVariants as class;
ghost use Rattle.hy_formula.specs.Classes.{class_of};
ghost use Rattle.hy_formula.specs.Normals.{Normal, normal_form, HoldsAt, Signed, until, release, or, and, next, weak_next};
ghost use Rattle.hy_formula.specs.Renamed.{renamed, with_variables};

/// On finite words each body is decided: it holds at a position, or it does not.
#[tactic(auto, using(crate::proofs::LawRules::laws))]
pub fn decided_below()
    ensures { (m : ℕ) (words : Words) → IsDecided (below m) words }
{}

/// On endless words that repeat, as those of lassos do, each body is decided.
pub fn decided_repeating()
    ensures { (s c : ℕ) (words : Words) → Repeats words s c → IsDecided endless words }
{}

/// The normal form says what its body says, or that the body does not hold.
#[tactic(auto, using(crate::proofs::LawRules::laws))]
pub fn normal_form_right()
    ensures { (span : Span) (words : Words) → IsDecided span words
        → (b : Bool) (f : Tree) (i : ℕ)
        → HoldsAt span words (normal_form b f) i ↔ Signed b (SatisfiesAt span words f i) }
{}

/// Until and release at a position, by what they say at the next.
#[tactic(auto, using(crate::proofs::LawRules::laws))]
pub fn unrolled()
    ensures until { (span : Span) (words : Words) → IsDecided span words
        → (f g : Normal) (i : ℕ) → Within span i
        → HoldsAt span words (until f g) i
        ↔ HoldsAt span words (or g (and f (next (until f g)))) i }
    ensures release { (span : Span) (words : Words) → IsDecided span words
        → (f g : Normal) (i : ℕ) → Within span i
        → HoldsAt span words (release f g) i
        ↔ HoldsAt span words (and g (or f (weak_next (release f g)))) i }
{}

/// A renamed body says of words what the body says of the words with these variables.
pub fn renaming()
    ensures { (span : Span) (words : Words) (map : ℕ → ℕ) (f : Tree) (i : ℕ)
        → SatisfiesAt span words (renamed map f) i
        ↔ SatisfiesAt span (with_variables map words) f i }
{}

/// Over a finite list, whose members go by their numbers, the turned quantifiers with the negated
/// body say that the formula is not satisfied, where bodies are decided.
pub fn negating()
    ensures { (count : ℕ) (span : Span) (words : List ℕ → Words)
        → ((tuple : List ℕ) → IsDecided span (words tuple))
        → (prefix : List Quant) (body : Tree)
        → Quantified (λ k. k < count) (λ tuple. SatisfiesAt span (words tuple) (not body) 0) (map turned prefix)
        ↔ (¬ Quantified (λ k. k < count) (λ tuple. SatisfiesAt span (words tuple) body 0) prefix) }
{}

/// Members of two kinds, which go by their numbers, each with a match among those of the other: the
/// same quantifiers over both say the same, where bodies say the same of tuples that match.
pub fn matching()
    ensures { (member other : ℕ → Bool) (fits : ℕ → ℕ → Bool)
        → MatchBothWays (λ j. IsTrue (member j)) (λ k. IsTrue (other k)) (λ j k. IsTrue (fits j k))
        → (span elsewhere : Span) (words told : List ℕ → Words) (body saying : Tree)
        → SayTheSame (λ j k. IsTrue (fits j k)) (λ tuple. SatisfiesAt span (words tuple) body 0)
        (λ tuple. SatisfiesAt elsewhere (told tuple) saying 0)
        → (prefix : List Quant)
        → Quantified (λ j. IsTrue (member j)) (λ tuple. SatisfiesAt span (words tuple) body 0) prefix
        ↔ Quantified (λ k. IsTrue (other k)) (λ tuple. SatisfiesAt elsewhere (told tuple) saying 0) prefix }
{}

/// What a class says of the quantifiers.
#[tactic(auto, using(crate::proofs::LawRules::laws))]
pub fn class_shapes()
    ensures exists { (prefix : List Quant) → class_of prefix ≡ class.Exists
        → (n : ℕ) × (prefix ≡ repeated quant.Exists n) }
    ensures forall { (prefix : List Quant) → class_of prefix ≡ class.Forall
        → (n : ℕ) × (prefix ≡ repeated quant.Forall n) }
    ensures exists_forall { (prefix : List Quant) → class_of prefix ≡ class.ExistsForall
        → (n k : ℕ) × (0 < n) × (0 < k) × (prefix ≡ repeated quant.Exists n ++ repeated quant.Forall k) }
{}
