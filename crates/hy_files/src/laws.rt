//! A law of what files are. The function is empty: its contract is the law.

ghost use Rattle.std.specs.Prelude.{◌≡◌, ℕ, Bool, List};
ghost use Rattle.hy_formula.specs.Formulas.{Plain};
ghost use Rattle.hy_files.specs.Contents.{IsText, IsRefused};

use crate::fault::FileFault;

/// Bytes are one text of formulas, or are refused by one fault, and never both. So a step to which
/// memory suffices takes a file that was read exactly where it is a text.
pub fn one_text()
    ensures taken { (many : Bool) (quantifiers : ℕ) (old : List (List ℕ)) (bytes : List ℕ)
        (formulas others : List Plain) (new later : List (List ℕ))
        → IsText many quantifiers old bytes formulas new
        → IsText many quantifiers old bytes others later → (formulas ≡ others) × (new ≡ later) }
    ensures refused { (many : Bool) (quantifiers : ℕ) (old : List (List ℕ)) (bytes : List ℕ)
        (a b : FileFault) → IsRefused many quantifiers old bytes a
        → IsRefused many quantifiers old bytes b → a ≡ b }
    ensures apart { (many : Bool) (quantifiers : ℕ) (old : List (List ℕ)) (bytes : List ℕ)
        (formulas : List Plain) (new : List (List ℕ)) (fault : FileFault)
        → IsText many quantifiers old bytes formulas new → ¬ IsRefused many quantifiers old bytes fault }
{}
