//! Laws of runs of events.

ghost use Rattle.std.specs.Prelude.{◌≡◌, ◌↔◌, ◌⊎◌, ◌+◌, ◌<◌, ◌++◌, ◌∷◌, [], ℕ, true, List, length, slice_get, Some};
ghost use Rattle.std.specs.List.{Contains};
ghost use Rattle.hy_finite.specs.declared.event.Event.{Event};
ghost use Rattle.hy_finite.specs.declared.event.Event.TheVariants as event;
ghost use Rattle.hy_finite.specs.declared.lengths.Lengths.{Lengths as Rule};
ghost use Rattle.hy_finite.specs.Traces.{Trace, Meets};
ghost use Rattle.trace_trie.specs.Numbered.{Numbered};
ghost use Rattle.tuple_walk.specs.Finds.{traces_of};
ghost use Rattle.dominance.specs.Dominance.{Dominates};
ghost use Rattle.rv_core.specs.Histories.{History, step, goes, arrives};
ghost use Rattle.rv_core.specs.Endings.{Spec, spec_at, IsClean, IsQuiet, Ending, clean, Ends, Matched};
ghost use Rattle.rv_core.specs.declared.rv_error.RvError.TheVariants as errors;
ghost use Rattle.fin_monitor.specs.Machines.{Machine};
ghost use Rattle.rv_core.specs.Held.{Held, spec_of, specs_of, StandsFor, kept_count};
ghost use Rattle.rv_core.specs.StepBounds.{IsBound, IsSpecBound};
ghost use Rattle.rv_core.specs.Keeping.{Covers, kept_at, IsKeptCount};
ghost use Rattle.rv_core.specs.Masks.{masked, masked_list};
ghost use Rattle.rv_core.specs.Replies.{Stop, error_at, Runs, EndsAs};

/// A run of events ends, and in one way.
pub fn endings()
    ensures one { (rule : Rule) (specs : List Spec) (k : ℕ) (h : History) (events : List Event)
        (x y : Ending) → Ends rule specs k h events x → Ends rule specs k h events y → x ≡ y }
    ensures some { (rule : Rule) (specs : List Spec) (k : ℕ) (h : History) (events : List Event)
        → (x : Ending) × Ends rule specs k h events x }
{}

/// After events that are clean the run ends as what is left of it does.
pub fn going_on()
    ensures { (rule : Rule) (specs : List Spec) (k : ℕ) (h : History) (first later : List Event)
        (next : History) (x : Ending) → Ends rule specs k h first (clean next)
        → Ends rule specs k h (first ++ later) x
        ↔ Ends rule specs (k + length first) next later x }
{}

/// A save, clean events that match and a back lead to where they began, and leave no trace in what
/// comes later.
pub fn returning()
    ensures back { (rule : Rule) (specs : List Spec) (k : ℕ) (h : History) (events : List Event)
        → Matched 0 events → (end : History)
        → Ends rule specs k h (event.Save ∷ events ++ event.Back ∷ []) (clean end) → end ≡ h }
    ensures later { (rule : Rule) (specs : List Spec) (k : ℕ) (h : History)
        (events later : List Event) → Matched 0 events → (end : History)
        → Ends rule specs k h (event.Save ∷ events ++ event.Back ∷ []) (clean end) → (x : Ending)
        → Ends rule specs k h ((event.Save ∷ events ++ event.Back ∷ []) ++ later) x
        ↔ Ends rule specs (k + length (event.Save ∷ events ++ event.Back ∷ [])) h later x }
{}

/// Where no list of arrived traces violates a spec, a step that is not refused and no violating
/// arrival keeps it so.
pub fn quiet_steps()
    ensures { (rule : Rule) (specs : List Spec) (h : History) (e : Event) (next : History)
        → IsQuiet rule specs h → step h e ≡ goes next
        → (arrives e ≡ true → IsClean rule specs next.present.arrived) → IsQuiet rule specs next }
{}

/// Calls of `event`, one after another up to the first that is answered by a violation or an error,
/// end as the events do: with the first one that brings a violation or is refused, or behind the
/// last one. Unless memory ran out.
pub fn runs()
    ensures { (k : ℕ) (m : Held) (h : History) (events : List Event) (stop : Stop) (x : Ending)
        → StandsFor m h → Runs k m events stop → Ends m.rule (specs_of m) k h events x
        → EndsAs m.rule (specs_of m) x stop ⊎ ((n : ℕ) × (stop ≡ error_at n errors.Memory)) }
{}

/// A body says of traces what it says of them with the names alone that stand in it. So these
/// dominate one another as the traces do.
pub fn masking()
    ensures body { (rule : Rule) (spec : Spec) (tuple : List Trace)
        → Meets rule spec.body tuple ↔ Meets rule spec.body (masked_list spec tuple) }
    ensures dominance { (rule : Rule) (spec : Spec) (t u : Trace)
        → Dominates rule spec.variables spec.body t u
        ↔ Dominates rule spec.variables spec.body (masked spec t) (masked spec u) }
{}

/// A bound for a walk over all traces that have arrived and a new one is a bound for its spec: what
/// the spec keeps and sees of them has at most as many joint prefixes.
pub fn bounding()
    ensures { (m : Held) (h : History) (t : Trace) (s : ℕ) (q : Machine) (bound : ℕ)
        → StandsFor m h → slice_get m.machines s ≡ Some q
        → IsBound m.rule q (h.present.arrived ++ t ∷ []) t bound
        → IsSpecBound m.rule q (traces_of (kept_at m.kept s)) (masked (spec_of q) t) bound }
{}

/// For each spec it is said that as many traces are kept as have arrived; or, where dominated ones
/// are dropped, as there are leaders. Of those that are kept none covers another, and one covers
/// each that arrived, with the names alone that the spec has: it dominates it where dominated ones
/// are dropped or there is one variable, and else equals it.
pub fn keeping()
    ensures counts { (m : Held) (h : History) (s : ℕ) → StandsFor m h → s < length (specs_of m)
        → IsKeptCount m.rule m.drop (spec_at (specs_of m) s) h.present.arrived (kept_count m s) }
    ensures apart { (m : Held) (h : History) (s : ℕ) (p q : Numbered) → StandsFor m h
        → s < length (specs_of m) → Contains (kept_at m.kept s) p → Contains (kept_at m.kept s) q
        → Covers m.rule m.drop (spec_at (specs_of m) s) p.1 q.1 → p ≡ q }
    ensures covers { (m : Held) (h : History) (s : ℕ) (t : Trace) → StandsFor m h
        → s < length (specs_of m) → Contains h.present.arrived t
        → (u : Trace) × Contains (traces_of (kept_at m.kept s)) u
        × Covers m.rule m.drop (spec_at (specs_of m) s) u
        (masked (spec_at (specs_of m) s) t) }
{}
