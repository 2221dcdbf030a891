//! Laws of the grammar, the table of places, the answers and the printer. Each function is empty: its contract is the law.

ghost use Rattle.std.specs.Prelude.{◌≡◌, ◌↔◌, ◌++◌, ◌≤◌, ◌<◌, ◌^◌, [], ◌∷◌, ℕ, zero, length, Bool, List, Some, None, IsTrue, All};
ghost use Rattle.hy_formula.specs.Formulas.{Plain};
ghost use Rattle.hy_read.specs.Answers.{Answer, Answers, faulty, read_as, tokens_of};
ghost use Rattle.hy_read.specs.Scanning.{Span, Spans};
ghost use Rattle.hy_read.specs.Grammar.{AreFormulas, Derives, Flat, IsText, Read, loosest};
ghost use Rattle.hy_read.specs.Places.{IsAllowed, IsLongest, IsViable, Place, start, operator, next_place, place_after};
ghost use Rattle.hy_read.specs.Results.{Bound, IsBound, Reads, Result, most_open};
ghost use Rattle.hy_read.specs.Printing.{printed};
ghost use Rattle.hy_read.specs.Readings.{IsReading};
ghost use Rattle.hy_formula.specs.Names.{are_distinct};
ghost use Rattle.hy_formula.specs.Trees.{Tree, height};
ghost use Rattle.hy_text.specs.Names.{AreNames};
ghost use Rattle.hy_read.specs.Within.{Within};
ghost use Rattle.hy_read.specs.Tokens.{Token, kind_of};

/// Tokens are allowed to their end by the table exactly where the grammar derives them.
#[tactic(auto, using(crate::proofs::Proved::laws))]
pub fn allowed_is_derived()
    ensures { (many : Bool) (tokens : List Token) → IsAllowed many tokens ↔ IsText many tokens }
{}

/// The viable lists are the beginnings of texts.
#[tactic(auto, using(crate::proofs::Proved::laws))]
pub fn viable_begins_text()
    ensures { (many : Bool) (tokens : List Token) → IsViable many tokens
        ↔ ((rest : List Token) × IsText many (tokens ++ rest)) }
{}

/// There is one longest viable prefix.
#[tactic(auto, using(crate::proofs::Proved::laws))]
pub fn one_fault()
    ensures some { (many : Bool) (tokens : List Token) → (k : ℕ) × IsLongest many tokens k }
    ensures once { (many : Bool) (tokens : List Token) (j k : ℕ) → IsLongest many tokens j
        → IsLongest many tokens k → j ≡ k }
{}

/// Where a reader stops is the fault: a token that is not allowed behind those that are, or an end.
#[tactic(auto, using(crate::proofs::Proved::laws))]
pub fn fault_found()
    ensures token { (many : Bool) (front : List Token) (q : Place) (t : Token) (rest : List Token)
        → place_after many start front ≡ Some q → next_place many q (kind_of t) ≡ None
        → ¬ IsText many (front ++ t ∷ rest) × IsLongest many (front ++ t ∷ rest) (length front) }
    ensures end { (many : Bool) (tokens : List Token) (q : Place)
        → place_after many start tokens ≡ Some q → (q ≡ operator zero → ⊥) → ¬ IsText many tokens
        × IsLongest many tokens (length tokens) }
{}

/// Tokens derive one list of formulas.
#[tactic(auto, using(crate::proofs::Proved::laws))]
pub fn one_reading()
    ensures { (names : List (List ℕ)) (many : Bool) (fs gs : List Read) (tokens : List Token)
        → AreFormulas (Bound names) many fs tokens → AreFormulas (Bound names) many gs tokens
        → fs ≡ gs }
{}

/// There is one answer to each list of tokens.
#[tactic(auto, using(crate::proofs::Proved::laws))]
pub fn one_answer()
    ensures some { (many : Bool) (limit : ℕ) (old : List (List ℕ)) (tokens : List Token)
        → (r : Result) × Reads many limit old tokens r }
    ensures once { (many : Bool) (limit : ℕ) (old : List (List ℕ)) (tokens : List Token) (r s : Result) → Reads many limit old tokens r → Reads many limit old tokens s → r ≡ s }
{}

/// There is one answer to each list of bytes.
#[tactic(auto, using(crate::proofs::Proved::laws))]
pub fn one_answer_to_bytes()
    ensures some { (many : Bool) (limit : ℕ) (old : List (List ℕ)) (bytes : List ℕ) → (a : Answer)
        × Answers many limit old bytes a }
    ensures once { (many : Bool) (limit : ℕ) (old : List (List ℕ)) (bytes : List ℕ) (a b : Answer)
        → Answers many limit old bytes a → Answers many limit old bytes b → a ≡ b }
{}

/// A body derives with a bound on open parentheses exactly where their count is within it.
#[tactic(auto, using(crate::proofs::Proved::laws))]
pub fn parens_are_counted()
    ensures { (names variables : List (List ℕ)) (n : ℕ) (tokens : List Token) (tree : Tree)
        → Within (IsBound names variables) n loosest tokens tree []
        ↔ (Derives (IsBound names variables) loosest tokens tree [] × (most_open zero tokens ≤ n)) }
{}

/// The height of a body is that of its tree with `true` for each atom.
#[tactic(auto, using(crate::proofs::Proved::laws))]
pub fn height_without_names()
    ensures { (names variables : List (List ℕ)) (tokens : List Token) (a b : Tree)
        → Derives (IsBound names variables) loosest tokens a [] → Derives Flat loosest tokens b []
        → height a ≡ height b }
{}

/// A reader that stops at a token, or at the end, has its answer.
#[tactic(auto, using(crate::proofs::Proved::laws))]
pub fn fault_answered()
    ensures token { (many : Bool) (limit : ℕ) (old : List (List ℕ)) (bytes : List ℕ) (front rest : List Span) (s : Span) (q : Place) → Spans zero bytes (front ++ s ∷ rest) → place_after many start (tokens_of front) ≡ Some q → next_place many q (kind_of s.token) ≡ None → Answers many limit old bytes (faulty (length front) s.first) }
    ensures end { (many : Bool) (limit : ℕ) (old : List (List ℕ)) (bytes : List ℕ) (spans : List Span) (q : Place) → Spans zero bytes spans → place_after many start (tokens_of spans) ≡ Some q → (q ≡ operator zero → ⊥) → Answers many limit old bytes (faulty (length spans) (length bytes)) }
{}

/// The numbers of a fault are at most the file's length.
#[tactic(auto, using(crate::proofs::Proved::laws))]
pub fn fault_fits()
    ensures { (many : Bool) (limit : ℕ) (old : List (List ℕ)) (bytes : List ℕ) (k b : ℕ)
        → Answers many limit old bytes (faulty k b) → (k ≤ length bytes) × (b ≤ length bytes) }
{}

/// The names of a reading are names, no two of them equal, and at most 64, where those of before are
/// names and distinct; these come first.
pub fn names_are_read()
    ensures names { (many : Bool) (limit : ℕ) (old : List (List ℕ)) (bytes : List ℕ) (formulas : List Plain) (table : List (List ℕ)) → Answers many limit old bytes (read_as formulas table) → AreNames old → AreNames table }
    ensures distinct { (many : Bool) (limit : ℕ) (old : List (List ℕ)) (bytes : List ℕ) (formulas : List Plain) (table : List (List ℕ)) → Answers many limit old bytes (read_as formulas table) → IsTrue (are_distinct old) → IsTrue (are_distinct table) }
    ensures few { (many : Bool) (limit : ℕ) (old : List (List ℕ)) (bytes : List ℕ) (formulas : List Plain) (table : List (List ℕ)) → Answers many limit old bytes (read_as formulas table) → length table ≤ 64 }
    ensures kept { (many : Bool) (limit : ℕ) (old : List (List ℕ)) (bytes : List ℕ) (formulas : List Plain) (table : List (List ℕ)) → Answers many limit old bytes (read_as formulas table) → (more : List (List ℕ)) × (table ≡ old ++ more) }
{}

/// The formulas of a reading are over its names: each atom's number is below their count. They keep
/// the limits on quantifiers and height.
pub fn formulas_are_over_names()
    ensures { (many : Bool) (limit : ℕ) (old : List (List ℕ)) (bytes : List ℕ) (formulas : List Plain) (table : List (List ℕ)) → Answers many limit old bytes (read_as formulas table) → All (IsReading limit (length table)) formulas }
{}

/// A printed formula is read. Over the names that it was printed with it is the same; and what was
/// read alone is the same, with the same names, over the names of before.
pub fn printed_formula_is_read()
    ensures over { (many : Bool) (limit : ℕ) (table : List (List ℕ)) (formula : Plain) → limit < 2 ^ 64 → AreNames table → IsTrue (are_distinct table) → length table ≤ 64 → IsReading limit (length table) formula → Answers many limit table (printed table formula) (read_as (formula ∷ []) table) }
    ensures again { (many again : Bool) (limit : ℕ) (old : List (List ℕ)) (bytes : List ℕ) (formula : Plain) (table : List (List ℕ)) → Answers many limit old bytes (read_as (formula ∷ []) table) → limit < 2 ^ 64 → AreNames old → IsTrue (are_distinct old) → Answers again limit old (printed table formula) (read_as (formula ∷ []) table) }
{}
