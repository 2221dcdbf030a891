//! A shelf in memory, of which chosen calls fail.

ghost use Rattle.std.specs.Prelude.{◌≡◌, ◌≢◌, ◌≤◌, ◌<◌, ◌++◌, ◌⊎◌, ◌+◌, ⊤, false, Some, None, [], length, take, min, position, Contains, IsOk, IsErr, IfOk, OnOk, OnErr};
ghost use Rattle.hy_base.specs.Counts.{Rose, last_count};
ghost use Rattle.hy_base.specs.Calls.{NoneFailsAfter};
ghost use Rattle.hy_base.specs.Fakes.{Leads};
ghost use Rattle.hy_base.specs.Files.{has_name, file_of};
ghost use Rattle.hy_base.specs.Talks.{opened, not_opened, gave, at_end, not_read};

use crate::calls::{Calls, one_more};
use crate::list::{List, NumList, Remake, Text};
use crate::memory::M;
use crate::shelf::{Shelf, ShelfFailed};
use std::alloc::Global;
use std::marker::Model;

/// A file in memory.
#[derive(Drop)]
pub struct File {
    pub name: Text,
    pub bytes: Text,
}

impl Remake for File {
    fn remake(&self, alloc: Global) -> M<Self> {
        Ok(File {
            name: self.name.copy(alloc)?,
            bytes: self.bytes.copy(alloc)?,
        })
    }
}

/// Files, of which the first of a name counts.
pub type FileList = List<File>;

/// Where a shelf reads on: the place of the open file, and how many of its bytes were read.
#[derive(Clone, Copy)]
struct Place {
    file: usize,
    position: usize,
}

/// Files in memory. It tells all that a shelf may tell.
///
/// Opens and reads are counted together from 1, and those whose numbers are in a list fail, as does
/// an open of a name that no file has.
#[derive(Drop)]
pub struct MemShelf {
    files: FileList,
    calls: Calls,
    place: Option<Place>,
    open_faults: u64,
    read_faults: u64,
}

impl Model for MemShelf {
    ghost use Rattle.std.specs.Prelude.{◌≤◌, ◌<◌, length, slice_get};
    ghost use Rattle.std.specs.Option.{ForSome};
    ghost use Rattle.hy_base.specs.Files.{open_name_of, rest_of};
    ghost use Rattle.hy_base.specs.Fakes.{Store};

    ghost Value = { Store };

    ghost view = { λ s. record {
      files = s.files;
      open_name = open_name_of s.files s.place;
      rest = rest_of s.files s.place;
      made = s.calls.made;
      fail = s.calls.fail;
      open_faults = s.open_faults;
      read_faults = s.read_faults;
    } };

    ghost invariant = { λ s.
        ForSome s.place (λ p. p.file < length s.files)
        × ForSome s.place (λ p. ForSome (slice_get s.files p.file) (λ file. p.position ≤ length file.bytes)) };
}

impl MemShelf {
    /// The files, none open, with no call made. The calls with the numbers `fail` are to fail.
    pub fn new(files: FileList, fail: NumList) -> MemShelf
        ensures { result ≡ record { files = files; open_name = None; rest = []; made = 0; fail = fail; open_faults = 0; read_faults = 0 } }
    {
        MemShelf {
            files,
            calls: Calls::new(fail),
            place: None,
            open_faults: 0,
            read_faults: 0,
        }
    }
}

impl Shelf for MemShelf {
    ghost tells = { λ s. ⊤ };

    ghost file = { λ s. file_of s.files };

    ghost open_name = { λ s. s.open_name };

    ghost rest = { λ s. s.rest };

    ghost is_sound = { λ s. NoneFailsAfter s.made s.fail };

    ghost open_faults = { λ s. s.open_faults };

    ghost read_faults = { λ s. s.read_faults };

    ghost called = { λ s call t. Leads s call t };

    #[tactic(auto, using(crate::proofs::FileLemmas::opened_name, crate::proofs::FileLemmas::opened_rest, crate::proofs::FileLemmas::lacks_file))]
    fn open_file(&mut self, name: &str) -> Result<(), ShelfFailed>
        ensures files { self.new.files ≡ self.old.files }
        ensures sound { NoneFailsAfter self.old.made self.old.fail → NoneFailsAfter self.new.made self.new.fail }

        ensures open_faults { self.old.open_faults ≤ self.new.open_faults }
        ensures read_faults { self.new.read_faults ≡ self.old.read_faults }
        ensures counted { OnErr result (Rose self.old.open_faults self.new.open_faults) }
        ensures lacks { NoneFailsAfter self.old.made self.old.fail → OnErr result (file_of self.old.files name.now ≡ None) }

        ensures opened { OnOk result (self.new.open_name ≡ Some name.now) }
        ensures whole { OnOk result (file_of self.old.files name.now ≡ Some self.new.rest) }
        ensures closed { OnErr result ((self.new.open_name ≡ None) × (self.new.rest ≡ [])) }
        ensures called { OnOk result (Leads self.old (opened name.now) self.new) }
        ensures refused { OnErr result (Leads self.old (not_opened name.now) self.new) }

        ensures made { self.old.made ≢ last_count → self.new.made ≡ self.old.made + 1 }
        ensures chosen { self.old.made ≢ last_count → Contains self.old.fail self.new.made → IsErr result }
        ensures numbers { self.new.fail ≡ self.old.fail }
        ensures fails { OnErr result ((file_of self.old.files name.now ≡ None) ⊎ Contains self.old.fail self.new.made) }
    {
        self.place = None;
        if !self.calls.next_fails() {
            if let Some(file) = find_file(&self.files, name) {
                self.place = Some(Place { file, position: 0 });
                return Ok(());
            }
        }
        self.open_faults = one_more(self.open_faults);
        Err(ShelfFailed)
    }

    fn read(&mut self, buf: &mut [u8]) -> Result<usize, ShelfFailed>
        ensures files { self.new.files ≡ self.old.files }
        ensures sound { NoneFailsAfter self.old.made self.old.fail → NoneFailsAfter self.new.made self.new.fail }

        ensures open_faults { self.new.open_faults ≡ self.old.open_faults }
        ensures read_faults { self.old.read_faults ≤ self.new.read_faults }
        ensures counted { OnErr result (Rose self.old.read_faults self.new.read_faults) }
        ensures succeeds { NoneFailsAfter self.old.made self.old.fail → IsOk result }

        ensures opened { self.new.open_name ≡ self.old.open_name }
        ensures within { IfOk result (λ k. k ≤ length buf.old) }
        ensures moved { IfOk result (λ k. self.old.rest ≡ take k buf.new ++ self.new.rest) }
        ensures ended { 0 < length buf.old → IfOk result (λ k. k ≡ 0 → self.old.rest ≡ []) }
        ensures called { IfOk result (λ k. 0 < k → Leads self.old (gave (take k buf.new)) self.new) }
        ensures at_end { 0 < length buf.old → IfOk result (λ k. k ≡ 0 → Leads self.old at_end self.new) }
        ensures refused { OnErr result (Leads self.old not_read self.new) }
        ensures most { IfOk result (λ k. k ≡ min (length buf.old) (length self.old.rest)) }

        ensures made { self.old.made ≢ last_count → self.new.made ≡ self.old.made + 1 }
        ensures chosen { self.old.made ≢ last_count → Contains self.old.fail self.new.made → IsErr result }
        ensures numbers { self.new.fail ≡ self.old.fail }
        ensures fails { OnErr result (Contains self.old.fail self.new.made) }
    {
        if self.calls.next_fails() {
            self.read_faults = one_more(self.read_faults);
            return Err(ShelfFailed);
        }
        let Some(place) = self.place else {
            return Ok(0);
        };
        let bytes = self.files.at(place.file).bytes.as_slice();
        let count = copy_front(buf, &bytes[place.position..]);
        self.place = Some(Place {
            file: place.file,
            position: place.position + count,
        });
        Ok(count)
    }
}

/// The place of the first file with this name, in time linear in the names.
fn find_file(files: &FileList, name: &str) -> Option<usize>
    ensures { result ≡ position (has_name name.now) files.now }
{
    files
        .as_slice()
        .iter()
        .position(|file| file.name.as_slice() == name.as_bytes())
}

/// Copies as many bytes as fit, from the front of `from` to the front of `to`, and says how many.
fn copy_front(to: &mut [u8], from: &[u8]) -> usize
    ensures count { result ≡ min (length to.old) (length from.now) }
    ensures moved { take result to.new ≡ take result from.now }
{
    let count = to.len().min(from.len());
    to[..count].copy_from_slice(&from[..count]);
    count
}
