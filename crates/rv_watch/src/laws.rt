//! Laws of what a watch answers. The functions are empty: their contracts are the laws.

ghost use Rattle.std.specs.Prelude.{◌≡◌, ◌⊎◌, ℕ, List, Some, Err};
ghost use Rattle.rv_core.specs.Endings.{Spec};
ghost use Rattle.rv_watch.specs.Agreeing.{Agree};
ghost use Rattle.rv_watch.specs.ByEvents.{IsByEvents, IsByReads};
ghost use Rattle.rv_watch.specs.Courses.{WatchAnswer as Due};
ghost use Rattle.rv_watch.specs.Input.{InputComes, Watches, input_name};
ghost use Rattle.rv_watch.specs.declared.verdict.Question.{Question as Asked};

use hy_base::Shelf;
use hy_run::Refusal;

/// An input comes to one answer, with the same lines of counts before; save that violations may name
/// different tuples, and but for want of memory.
pub fn one_answer()
    ensures { (q : Asked) (specs : List Spec) (table : List (List ℕ)) (bytes : List ℕ)
        (said more : List (List ℕ)) (a b : Due) → InputComes q specs table bytes said a
        → InputComes q specs table bytes more b
        → (a ≡ Err Refusal.Memory) ⊎ (b ≡ Err Refusal.Memory) ⊎ ((said ≡ more) × Agree a b) }
{}

/// On a sound shelf that tells its files, a watch comes to what the bytes of standard input come to,
/// in whatever pieces reads give them.
pub fn complete<S: Shelf>()
    ensures { (q : Asked) (specs : List Spec) (table : List (List ℕ)) (bytes : List ℕ) (old new : S)
        (said : List (List ℕ)) (answer : Due) → S.tells old → S.is_sound old
        → S.file old input_name ≡ Some bytes → Watches S.Shelf old q specs table new said answer
        → InputComes q specs table bytes said answer }
{}

/// The first event that is refused or brings a violation decides what a watch answers, whatever lines
/// stand behind its own, or where there is none all events do: it is what `rvhyper` answers by how
/// the events end, but for want of memory and for limits that no file of `rvhyper` is past.
pub fn endings<S: Shelf>()
    ensures reads { (q : Asked) (specs : List Spec) (table : List (List ℕ)) (old new : S)
        (said : List (List ℕ)) (answer : Due) → Watches S.Shelf old q specs table new said answer
        → IsByReads S.Shelf old q specs table new answer }
    ensures bytes { (q : Asked) (specs : List Spec) (table : List (List ℕ)) (bytes : List ℕ)
        (said : List (List ℕ)) (answer : Due) → InputComes q specs table bytes said answer
        → IsByEvents q specs table bytes answer }
{}
