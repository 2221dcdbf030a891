//! Laws of the definitions: what is found first, pieces, and lines.

ghost use Rattle.std.specs.Prelude.{◌≡◌, ◌<◌, ◌^◌, ◌∷◌, ◌++◌, ℕ, suc, Bool, true, Option, drop, [], List, Some, None};
ghost use Rattle.std.specs.List.{concat};
ghost use Rattle.aiger_body.specs.Texts.{pieces, place, is_ended, is_feed, line_text, numbers_of};
ghost use Rattle.aig_order.specs.Firsts.{first_some};
ghost use Rattle.aiger_body.specs.Outcomes.{Refusal};
ghost use Rattle.aiger_body.specs.Spelled.{AreShort, spelled, end_of};

/// What is found first has nothing found before it.
pub fn first_right()
    ensures found { (find : ℕ → Option Refusal) (n : ℕ) (r : Refusal) →
        first_some n find ≡ Some r → (k : ℕ) × (k < n) × (find k ≡ Some r) × ((j : ℕ) → j < k →
        find j ≡ None) }
    ensures none { (find : ℕ → Option Refusal) (n : ℕ) → first_some n find ≡ None → (k : ℕ) →
        k < n → find k ≡ None }
{}

/// The pieces of a text are the text, and from the place of one on it is cut into it and the later
/// ones.
pub fn pieces_right()
    ensures whole { (ends : ℕ → Bool) (bytes : List ℕ) → concat (pieces ends bytes) ≡ bytes }
    ensures from { (ends : ℕ → Bool) (k : ℕ) (bytes : List ℕ) →
        pieces ends (drop (place (pieces ends bytes) k) bytes) ≡ drop k (pieces ends bytes) }
{}

/// A line that spells numbers says them, and no other line does.
pub fn lines_right()
    ensures read { (carriage : Bool) (n : ℕ) (row : List ℕ) → AreShort (n ∷ row) →
        numbers_of (line_text (spelled (n ∷ row) ++ end_of carriage)) ≡ n ∷ row }
    ensures spelled { (line : List ℕ) (n : ℕ) (row : List ℕ) → is_ended is_feed line ≡ true →
        numbers_of (line_text line) ≡ n ∷ row →
        (carriage : Bool) × (line ≡ spelled (n ∷ row) ++ end_of carriage) }
{}
