//! Open sessions by their numbers.

ghost use Rattle.std.specs.Prelude.{◌≡◌, ◌<◌, ◌≤◌, ◌++◌, ◌∷◌, [], length, None, Some, IfOk, IfErr, IfSome, OnOk, OnErr, IsSome};
ghost use Rattle.std.specs.Option.{option_copied};
ghost use Rattle.rv_core.specs.Opened.{IsNotLonger, letters_in, Extends, IsNotTaken, Puts};

use crate::rv_error::RvError;
use crate::session_word::SessionWord;
use hy_base::{Kind, M};
use hy_bits::{LetterMask, Letters};
use hy_finite::MOST_LETTERS;
use indexmap::IndexMap;
use std::alloc::{AllocError, Global};
use std::marker::Model;

/// The most sessions that are open at once.
const MOST_SESSIONS: usize = 1024;

/// The letters of each open session, found by its number. At most 1,024 sessions are open, each
/// with 1 to 1,024 letters.
#[derive(Drop)]
pub(crate) struct SessionMap {
    map: IndexMap<u32, SessionWord>,
}

impl Model for SessionMap {
    ghost use Rattle.std.specs.Coded.{coded_ℕ, coded×, coded_list};
    ghost use Rattle.std.specs.FinSet as set;
    ghost use Rattle.rv_core.specs.Opened.{Open, AreOpen};

    ghost Value = { Open };

    ghost coded = { coded_list (coded× coded_ℕ (coded_list (set.code coded_ℕ))) };

    ghost view = { λ s. s.map.entries };

    ghost invariant = { λ s. AreOpen s.map.entries };
}

impl SessionMap {
    ghost use Rattle.rv_core.specs.Opened.{letters_in, Extends, IsNotTaken, Closes};

    /// No session. Takes no memory.
    pub(crate) fn new(alloc: Global) -> SessionMap
        ensures { result ≡ [] }
    {
        SessionMap {
            map: IndexMap::new(alloc),
        }
    }

    /// How many sessions are open: at most 1,024.
    pub(crate) fn len(&self) -> u32
        ensures { result ≡ length self.now }
    {
        self.map.len() as u32
    }

    /// The letters of a session, where it is open: 1 to 1,024.
    pub(crate) fn letters(&self, number: u32) -> Option<&Letters>
        ensures letters { option_copied result ≡ letters_in number self.now }
        ensures some { IfSome result (λ word. 1 ≤ length word.now) }
        ensures few { IfSome result (λ word. length word.now ≤ 1024) }
    {
        match self.map.get(&number) {
            None => None,
            Some(word) => Some(word.letters()),
        }
    }

    /// Puts a letter last in its session, which is opened where it is not open. `Limit` where the
    /// session has 1,024 letters already, or 1,024 others are open. Refused it changes nothing.
    pub(crate) fn extend(
        &mut self,
        alloc: Global,
        number: u32,
        letter: LetterMask,
    ) -> Result<(), RvError>
        ensures extended { OnOk result (Extends number letter self.old self.new) }
        ensures refused { IfErr result (IsNotTaken number self.old) }
        ensures unchanged { OnErr result (self.new ≡ self.old) }
    {
        match self.map.get_mut(&number) {
            Some(word) => add_letter(alloc, word, letter),
            None => open_session(&mut self.map, alloc, number, letter),
        }
    }

    /// Closes a session.
    pub(crate) fn close(&mut self, number: u32)
        requires { IsSome (letters_in number self.old) }
        ensures { Closes number self.old self.new }
    {
        let _letters = self.map.swap_remove(&number);
    }
}

impl Clone for SessionMap {
    ghost is_clone = { λ m copy. copy ≡ m };

    /// The same sessions, which share their letters, in time and memory linear in their number.
    fn clone(&self) -> Result<SessionMap, AllocError> {
        let map = self.map.clone()?;
        Ok(SessionMap { map })
    }
}

/// Puts a letter last. `Limit` where there are 1,024 letters already. Refused it changes nothing.
fn add_letter(alloc: Global, word: &mut SessionWord, letter: LetterMask) -> Result<(), RvError>
    ensures added { OnOk result (word.new ≡ word.old ++ letter ∷ []) }
    ensures short { OnOk result (length word.old < 1024) }
    ensures refused { IfErr result (IsNotLonger word.old) }
    ensures unchanged { OnErr result (word.new ≡ word.old) }
{
    if word.letters().len() >= MOST_LETTERS {
        return Err(RvError::Limit(Kind::Length));
    }
    word.push(alloc, letter)?;
    Ok(())
}

/// Opens a session with its first letter. `Limit` where 1,024 sessions are open. Refused it changes
/// nothing.
fn open_session(
    sessions: &mut IndexMap<u32, SessionWord>,
    alloc: Global,
    number: u32,
    letter: LetterMask,
) -> Result<(), RvError>
    requires { letters_in number sessions.old.entries ≡ None }
    ensures opened { OnOk result (Extends number letter sessions.old.entries sessions.new.entries) }
    ensures refused { IfErr result (IsNotTaken number sessions.old.entries) }
    ensures unchanged { OnErr result (sessions.new.entries ≡ sessions.old.entries) }
{
    if sessions.len() >= MOST_SESSIONS {
        return Err(RvError::Limit(Kind::Sessions));
    }
    insert(sessions, number, SessionWord::one(alloc, letter)?)?;
    Ok(())
}

/// Puts a new session last.
fn insert(sessions: &mut IndexMap<u32, SessionWord>, number: u32, word: SessionWord) -> M<()>
    requires { letters_in number sessions.old.entries ≡ None }
    ensures added { OnOk result
        (sessions.new.entries ≡ sessions.old.entries ++ (number, word) ∷ []) }
    ensures put { OnOk result
        (Puts number (Some word) sessions.old.entries sessions.new.entries) }
    ensures unchanged { OnErr result (sessions.new.entries ≡ sessions.old.entries) }
{
    sessions.insert(number, word)?;
    Ok(())
}
