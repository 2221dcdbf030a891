//! Laws of lists of traces, and of lines and files of events.

ghost use Rattle.std.specs.Prelude.{◌≡◌, ◌≢◌, ◌↔◌, ◌<◌, ◌++◌, ◌∷◌, [], ℕ, List, Option, Some, Result, Ok, Err, length, map};
ghost use Rattle.std.specs.List.{Contains};
ghost use Rattle.hy_formula.specs.Trees.{Tree};
ghost use Rattle.hy_formula.specs.Temporal.{Decided};
ghost use Rattle.hy_formula.specs.declared.prefix.Quant.TheVariants as quant;
ghost use Rattle.hy_formula.specs.Quantifiers.{Quantified, repeated, Each};
ghost use Rattle.hy_finite.specs.declared.lengths.Lengths.{Lengths as Rule};
ghost use Rattle.hy_finite.specs.declared.event.Event.{Event};
ghost use Rattle.hy_finite.specs.declared.event.Placed.{Placed};
ghost use Rattle.hy_text.specs.declared.line_error.LineError.{LineError};
ghost use Rattle.hy_text.specs.declared.line_error.LineError.TheVariants as errors;
ghost use Rattle.hy_finite.specs.Traces.{Trace, judged, Meets, Violates, ViolatesBy, fit};
ghost use Rattle.hy_text.specs.Lines.{SaysNothing};
ghost use Rattle.hy_finite.specs.EventLines.{IsGood};
ghost use Rattle.hy_finite.specs.EventFiles.{SayEvents};
ghost use Rattle.hy_finite.specs.EventAnswers.{IsLineAnswer, IsFileAnswer, AreChecked};
ghost use Rattle.hy_finite.specs.LinesLeft.{LinesLeft};
ghost use Rattle.hy_finite.specs.NextEvents.{IsNextAnswer};

/// A list of traces violates a body exactly where not each choice of members satisfies it, and that is
/// decided. After an arrival each violating tuple has the new trace, where none was before.
pub fn violations()
    ensures not_every { (rule : Rule) (n : ℕ) (body : Tree) (list : List Trace)
        → Violates rule n body list
        ↔ (¬ Quantified (Contains list) (Meets rule body) (repeated quant.Forall n)) }
    ensures decided { (rule : Rule) (n : ℕ) (body : Tree) (list : List Trace)
        → Decided (Violates rule n body list) }
    ensures by_new { (rule : Rule) (n : ℕ) (body : Tree) (list : List Trace) (t : Trace)
        → (¬ Violates rule n body list)
        → (tuple : List Trace) → ViolatesBy rule n body (list ++ t ∷ []) tuple → Contains tuple t }
{}

/// A tuple is judged as its traces are, each cut or filled up to the judged length.
pub fn fitting()
    ensures { (rule : Rule) (body : Tree) (tuple : List Trace) → 0 < judged rule tuple
        → Meets rule body tuple ↔ Meets rule body (map (fit (judged rule tuple)) tuple) }
{}

/// A line and a file have one answer each, but for want of memory.
pub fn one_answer()
    ensures line { (table : List (List ℕ)) (line : List ℕ) (a b : Result (Option Event) LineError)
        → a ≢ Err errors.Memory → b ≢ Err errors.Memory
        → IsLineAnswer table line a → IsLineAnswer table line b → a ≡ b }
    ensures file { (table : List (List ℕ)) (bytes : List ℕ) (a b : Result (List Placed) LineError)
        → a ≢ Err errors.Memory → b ≢ Err errors.Memory
        → IsFileAnswer table bytes a → IsFileAnswer table bytes b → a ≡ b }
{}

/// What a reader gives line by line are the events of the lines, one after another, and there is no
/// fault where no line has one. What a check finds of the lines behind an event it finds of all.
pub fn next_events()
    ensures there { (table : List (List ℕ)) (n : ℕ) (lines : List (List ℕ)) → Each IsGood lines
        → (events : List Placed) × SayEvents table n lines events }
    ensures last { (table : List (List ℕ)) (n : ℕ) (lines : List (List ℕ))
        → Each SaysNothing lines → SayEvents table n lines [] }
    ensures more { (table : List (List ℕ)) (old new : LinesLeft) (placed : Placed)
        (later : List Placed) → IsNextAnswer table old new (Ok (Some placed))
        → SayEvents table new.first new.lines later
        → SayEvents table old.first old.lines (placed ∷ later) }
    ensures fewer { (table : List (List ℕ)) (old new : LinesLeft) (placed : Placed)
        → IsNextAnswer table old new (Ok (Some placed)) → length new.lines < length old.lines }
    ensures good { (table : List (List ℕ)) (old new : LinesLeft) (placed : Placed)
        → IsNextAnswer table old new (Ok (Some placed))
        → Each IsGood old.lines → Each IsGood new.lines }
    ensures checked { (table : List (List ℕ)) (old new : LinesLeft) (next : Option Placed)
        → IsNextAnswer table old new (Ok next) → (found : Result (Unit {0}) LineError)
        → AreChecked new found → AreChecked old found }
    ensures no_fault { (table : List (List ℕ)) (old new : LinesLeft) (fault : LineError)
        → Each IsGood old.lines → IsNextAnswer table old new (Err fault) → fault ≡ errors.Memory }
{}
