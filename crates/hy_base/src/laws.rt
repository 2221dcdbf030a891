//! Laws of shelves and sinks. The functions are empty: their contracts are the laws.

ghost use Rattle.std.specs.Prelude.{◌≡◌, ℕ, List, ◌∷◌, [], ◌++◌, map, Ok};
ghost use Rattle.std.specs.List.{concat};
ghost use Rattle.hy_base.specs.Logs.{Extends};
ghost use Rattle.hy_base.specs.Pieces.{IsProperPrefix};
ghost use Rattle.hy_base.specs.Recorded.{AreReads, shelf_entry, sink_entry};
ghost use Rattle.hy_base.specs.Shelf.{KeepsShelf, Read, ReadsFiles};
ghost use Rattle.hy_base.specs.Sink.{GivesWhole, FailsToGive};
ghost use Rattle.hy_base.specs.Talks.{Call, took, not_taken};

use crate::recorded_shelf::RecordedShelf;
use crate::recorded_sink::RecordedSink;
use crate::shelf::Shelf;
use crate::sink::Sink;

/// Over files that are read one after another a shelf keeps what it keeps over one.
pub fn files_keep<S: Shelf>()
    ensures { (old new : S) (names : List (List ℕ)) (reads : List Read)
        → ReadsFiles S.Shelf old new names reads → KeepsShelf S.Shelf old new }
{}

/// What came of reading files, one after another, is what the log of the shelf says: that these files
/// were opened in their order, that reads gave these bytes of each, or which call failed, and nothing
/// else.
pub fn logged_reads<S: Shelf>()
    ensures { (old new : RecordedShelf S) (names : List (List ℕ)) (reads : List Read)
        → ReadsFiles ⟦<RecordedShelf<S> as Shelf>⟧ old new names reads
        → (calls : List Call) × AreReads names reads calls
        × Extends old.log (map shelf_entry calls) new.log }
{}

/// No log says two readings: the bytes of files that were read to their ends are those of its calls.
pub fn one_reading()
    ensures { (names texts others : List (List ℕ)) (calls : List Call)
        → AreReads names (map Ok texts) calls → AreReads names (map Ok others) calls
        → texts ≡ others }
{}

/// What a writer says is what the log of the sink says: puts took the text, piece by piece, and none
/// failed; or they took less of it, and the one behind them failed; and nothing else was put.
pub fn logged_writes<O: Sink>()
    ensures given { (old new : RecordedSink O) (text : List ℕ)
        → GivesWhole ⟦<RecordedSink<O> as Sink>⟧ old new text
        → (pieces : List (List ℕ)) × (concat pieces ≡ text)
        × Extends old.log (map sink_entry (map took pieces)) new.log }
    ensures refused { (old new : RecordedSink O) (text : List ℕ)
        → FailsToGive ⟦<RecordedSink<O> as Sink>⟧ old new text
        → (pieces : List (List ℕ)) × IsProperPrefix (concat pieces) text
        × Extends old.log (map sink_entry (map took pieces ++ not_taken ∷ [])) new.log }
{}
