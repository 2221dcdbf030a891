//! Where files are read: what a reader may count on, whatever the files are kept in.

use std::error::Error;
use std::fmt;

/// A shelf did not open or did not read.
#[derive(Clone, Copy, Debug, PartialEq, Eq)]
pub struct ShelfFailed;

impl fmt::Display for ShelfFailed {
    fn fmt<W: fmt::Write>(&self, f: &mut fmt::Formatter<W>) -> fmt::Result {
        write!(f, "the shelf failed")
    }
}

impl Error for ShelfFailed {}

/// Files under names. One file is open at a time, and is read from its front to its end.
///
/// A shelf over real files tells nothing of them: only its counts are known.
pub trait Shelf {
    ghost use Rattle.std.specs.Prelude.{◌≡◌, ℕ, ◌+◌, ◌≤◌, ◌<◌, ◌++◌, List, [], Option, Some, None, OnOk, OnErr, IfOk, IsOk, IsErr, length, take};
    ghost use Rattle.hy_base.specs.Counts.{Rose};
    ghost use Rattle.hy_base.specs.Talks.{Call, opened, not_opened, gave, at_end, not_read};

    /// Whether the shelf tells its files, which is open, and what is left of it.
    ghost tells: { Self → Type 0 };

    /// The bytes of each file, by its name.
    ghost file: { Self → List ℕ → Option (List ℕ) };

    /// The name of the open file.
    ghost open_name: { Self → Option (List ℕ) };

    /// What is left to read of the open file; nothing where none is open.
    ghost rest: { Self → List ℕ };

    /// Whether each coming read succeeds, and each open of a file that is there.
    ghost is_sound: { Self → Type 0 };

    /// How many opens have failed, as far as a `u64` counts.
    ghost open_faults: { Self → ℕ };

    /// How many reads have failed, as far as a `u64` counts.
    ghost read_faults: { Self → ℕ };

    /// Whether this call, with what came of it, leads from one shelf to another. So what a program
    /// says of its reads holds on shelves that tell nothing too: no two shelves are joined by a call
    /// that was not made.
    ghost called: { Self → Call → Self → Type 0 };

    /// Opens the file `name` and closes the one that was open. After a failure no file is open.
    fn open_file(&mut self, name: &str) -> Result<(), ShelfFailed>
        ensures tells { tells self.old → tells self.new }
        ensures files { file self.new ≡ file self.old }
        ensures sound { is_sound self.old → is_sound self.new }

        ensures open_faults { open_faults self.old ≤ open_faults self.new }
        ensures read_faults { read_faults self.new ≡ read_faults self.old }
        ensures counted { OnErr result (Rose (open_faults self.old) (open_faults self.new)) }
        ensures lacks { is_sound self.old → OnErr result (file self.old name.now ≡ None) }

        ensures opened { tells self.old → OnOk result (open_name self.new ≡ Some name.now) }
        ensures whole { tells self.old → OnOk result (file self.old name.now ≡ Some (rest self.new)) }
        ensures closed { tells self.old → OnErr result ((open_name self.new ≡ None) × (rest self.new ≡ [])) }
        ensures called { OnOk result (called self.old (opened name.now) self.new) }
        ensures refused { OnErr result (called self.old (not_opened name.now) self.new) };

    /// Moves bytes from the front of what is left of the open file into `buf`, and answers how many.
    /// Into a `buf` that is not empty it moves none exactly where nothing is left.
    fn read(&mut self, buf: &mut [u8]) -> Result<usize, ShelfFailed>
        ensures tells { tells self.old → tells self.new }
        ensures files { file self.new ≡ file self.old }
        ensures sound { is_sound self.old → is_sound self.new }

        ensures open_faults { open_faults self.new ≡ open_faults self.old }
        ensures read_faults { read_faults self.old ≤ read_faults self.new }
        ensures counted { OnErr result (Rose (read_faults self.old) (read_faults self.new)) }
        ensures succeeds { is_sound self.old → IsOk result }

        ensures opened { tells self.old → open_name self.new ≡ open_name self.old }
        ensures within { IfOk result (λ k. k ≤ length buf.old) }
        ensures moved { tells self.old → IfOk result (λ k. rest self.old ≡ take k buf.new ++ rest self.new) }
        ensures ended { tells self.old → 0 < length buf.old → IfOk result (λ k. k ≡ 0 → rest self.old ≡ []) }
        ensures called { IfOk result (λ k. 0 < k → called self.old (gave (take k buf.new)) self.new) }
        ensures at_end { 0 < length buf.old → IfOk result (λ k. k ≡ 0 → called self.old at_end self.new) }
        ensures refused { OnErr result (called self.old not_read self.new) };
}
