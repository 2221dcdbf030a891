//! Laws of lassos: of the meaning of formulas over them, of their normal form, and of their files.

ghost use Rattle.std.specs.Prelude.{◌≡◌, ◌≢◌, ◌<◌, ◌↔◌, ℕ, false, IsTrue, List, Option, Some, Result, Err, length, map, All};
ghost use Rattle.hy_bits.specs.Letter.{Letter};
ghost use Rattle.hy_formula.specs.Trees.{Tree, not};
ghost use Rattle.hy_formula.specs.Temporal.{endless, Decided, IsDecided};
ghost use Rattle.hy_formula.specs.declared.prefix.Quant.{Quant};
ghost use Rattle.hy_formula.specs.Quantifiers.{turned};
ghost use Rattle.hy_formula.specs.Lassos.{Lasso};
ghost use Rattle.hy_formula.specs.Names.{are_distinct};
ghost use Rattle.hy_text.specs.declared.line_error.LineError.{LineError};
ghost use Rattle.hy_text.specs.declared.line_error.LineError.TheVariants.{Memory};
ghost use Rattle.hy_text.specs.Bytes.{is_line_feed};
ghost use Rattle.hy_text.specs.Names.{AreNames};
ghost use Rattle.hy_lasso.specs.LassoFiles.{IsLassoFile, IsLassosAnswer};
ghost use Rattle.hy_lasso.specs.LassoLines.{lasso_of, SaysLasso, IsLassoSaid};
ghost use Rattle.hy_lasso.specs.NormalForms.{IsNormal};
ghost use Rattle.hy_lasso.specs.Printed.{IsLassoOver, printed_line, printed_lassos, spelled_of};
ghost use Rattle.hy_lasso.specs.Words.{letter_at, lasso_words, AreLassos, Satisfies};

/// On a tuple of lassos each body is decided at each position: it holds there, or it does not.
pub fn decided_lassos()
    ensures { (tuple : List (Lasso Letter)) → AreLassos tuple
        → IsDecided endless (lasso_words tuple) }
{}

/// A list of lassos satisfies a formula or it does not, and its negation exactly where it does not.
pub fn negating()
    ensures decided { (list : List (Lasso Letter)) → AreLassos list
        → (prefix : List Quant) (body : Tree)
        → Decided (Satisfies list prefix body) }
    ensures negated { (list : List (Lasso Letter)) → AreLassos list
        → (prefix : List Quant) (body : Tree)
        → Satisfies list (map turned prefix) (not body) ↔ (¬ Satisfies list prefix body) }
{}

/// Two lassos in normal form with the same letter at every position are one lasso.
pub fn one_normal_form()
    ensures { (l m : Lasso Letter) → 0 < length l.cycle → 0 < length m.cycle
        → IsNormal l → IsNormal m
        → ((i : ℕ) → letter_at l i ≡ letter_at m i) → l ≡ m }
{}

/// A file has one answer, but for want of memory.
pub fn one_answer()
    ensures { (table : List (List ℕ)) (bytes : List ℕ)
        (a b : Result (List (Lasso Letter)) LineError)
        → a ≢ Err Memory → b ≢ Err Memory
        → IsLassosAnswer table bytes a → IsLassosAnswer table bytes b → a ≡ b }
{}

/// Lassos that were printed are read, over names that a reader may give.
pub fn printed_lassos_are_read()
    ensures { (table : List (List ℕ)) (list : List (Lasso Letter))
        → AreNames table → IsTrue (are_distinct table)
        → 0 < length list → AreLassos list → All (IsLassoOver table) list
        → IsLassoFile table (printed_lassos table list) list }
{}

/// The line of a lasso that was printed over names that a reader may give: no line feed stands in
/// it, it says the lasso, and nothing but the lasso is read of it.
pub fn printed_line_is_read()
    ensures one_line { (table : List (List ℕ)) (l : Lasso Letter) → AreNames table
        → All (λ b. is_line_feed b ≡ false) (printed_line table l) }
    ensures says { (table : List (List ℕ)) (l : Lasso Letter)
        → AreNames table → 0 < length l.cycle
        → SaysLasso (printed_line table l) (spelled_of table l) }
    ensures same { (table : List (List ℕ)) (l : Lasso Letter)
        → IsTrue (are_distinct table) → IsLassoOver table l
        → lasso_of table (spelled_of table l) ≡ l }
    ensures read { (table : List (List ℕ)) (l : Lasso Letter) (found : Option (Lasso Letter))
        → AreNames table → IsTrue (are_distinct table)
        → 0 < length l.cycle → IsLassoOver table l
        → IsLassoSaid table (printed_line table l) found → found ≡ Some l }
{}
