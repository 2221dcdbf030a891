//! Laws of closures: what the numbers of members mean.

ghost use Rattle.std.specs.Prelude.{◌≡◌, ◌<◌, ◌↔◌, ℕ, Bool, IsTrue, List, length, slice_get, slice_index, Some};
ghost use Rattle.hy_formula.specs.Temporal.{Span, Words, endless, IsDecided};
ghost use Rattle.hy_formula.specs.Normals.{Normal, HoldsAt};
ghost use Rattle.ltl_closure.specs.Nodes.{Node, Numbers, AreMarks};
ghost use Rattle.ltl_closure.specs.Closures.{closure, nodes_of, form_in};
ghost use Rattle.ltl_closure.specs.Jobs.{Task, forms_of, task_roots, Holds};

/// A closure numbers its forms, each after its parts.
pub fn closure_numbers()
    ensures { (forms : List Normal) → Numbers (nodes_of (closure forms)) (form_in (closure forms)) }
{}

/// A root says that the body of its job holds under its map, or does not hold where the job says
/// so.
pub fn root_right()
    ensures { (span : Span) (words : Words) → IsDecided span words
        → (tasks : List Task) (i : ℕ) (task : Task) → slice_get tasks i ≡ Some task
        → HoldsAt span words (form_in (closure (forms_of tasks)) (slice_index (task_roots tasks) i)) 0
        ↔ Holds span words task }
{}

/// Members that are marked at positions by the rules of their nodes hold there.
pub fn marked()
    ensures { (nodes : List Node) (form : ℕ → Normal) (words : Words) (marks : ℕ → ℕ → Bool)
        → Numbers nodes form → AreMarks nodes words marks
        → (k i : ℕ) → k < length nodes → IsTrue (marks k i) → HoldsAt endless words (form k) i }
{}
