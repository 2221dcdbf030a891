//! Laws of the steps of arrivals.

ghost use Rattle.std.specs.Prelude.{◌≡◌, ◌≤◌, [], ◌∷◌, ℕ, List, length, map};
ghost use Rattle.std.specs.FinSet.{empty};
ghost use Rattle.std.specs.List.{Contains};
ghost use Rattle.hy_bits.specs.Letter.{Letter};
ghost use Rattle.hy_finite.specs.declared.lengths.Lengths.TheVariants as rule;
ghost use Rattle.hy_finite.specs.Traces.{Trace};
ghost use Rattle.made_traces.specs.MadeTraces.{both_signals, made_traces};
ghost use Rattle.rv_core.specs.Held.{Held, specs_of, StandsFor};
ghost use Rattle.rv_core.specs.Histories.{History};
ghost use Rattle.rv_core.specs.StepBounds.{AreBounds};
ghost use Rattle.step_counts.specs.Branches.{AreSymmetric, Branches, counts_of, first_steps_of, steps_of};
ghost use Rattle.step_counts.specs.Words.{IsOver};

/// Where tuples are judged on the least of their lengths, these bound the steps of an arrival, by
/// where the traces that have arrived branch off from the new one: for each spec its variables times
/// the joint prefixes that they have; or, where the order of two traces does not matter, as many as
/// there are with the new trace first.
pub fn branching()
    ensures joint { (m : Held) (h : History) (t : Trace) (words : List (List Trace))
        → StandsFor m h → m.rule ≡ rule.Min → Branches h.present.arrived t words
        → AreBounds m t (map (steps_of (counts_of words)) (specs_of m)) }
    ensures first { (m : Held) (h : History) (t : Trace) (words : List (List Trace))
        → StandsFor m h → m.rule ≡ rule.Min → Branches h.present.arrived t words
        → AreSymmetric m.rule (specs_of m)
        → AreBounds m t (map (first_steps_of (counts_of words)) (specs_of m)) }
{}

/// From a trace of at most four letters, each of them one of two, those of these letters branch off
/// with at most 1, 3, 7 and 15 words.
pub fn two_letters()
    ensures { (x y : Letter) (list : List Trace) (t : Trace)
        → ((u : Trace) → Contains list u → IsOver x y u) → IsOver x y t → length t ≤ 4
        → (words : List (List Trace)) × Branches list t words
        × (counts_of words ≡ 1 ∷ 3 ∷ 7 ∷ 15 ∷ []) }
{}

/// Made traces are such ones.
pub fn made_traces_over_two()
    ensures { (table : List (List ℕ)) (n : ℕ) (t : Trace) → Contains (made_traces table n) t
        → IsOver (both_signals table) empty t × (length t ≤ 4) }
{}
