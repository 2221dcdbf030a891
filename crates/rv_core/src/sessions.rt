//! Sessions that are open, as saves share them.

ghost use Rattle.std.specs.Prelude.{◌≡◌, ◌≤◌, [], length, IfOk, IfErr, IfSome, OnOk, OnErr, IsSome};
ghost use Rattle.std.specs.Option.{option_copied};

use crate::rv_error::RvError;
use crate::session_map::SessionMap;
use hy_base::M;
use hy_bits::{LetterMask, Letters};
use std::alloc::Global;
use std::marker::Model;
use std::rc::Rc;

/// The open sessions, which saves share. Contracts see the list of their numbers and letters. What
/// a save shares is copied before it is changed.
#[derive(Drop)]
pub(crate) struct Sessions {
    map: Rc<SessionMap>,
}

impl Model for Sessions {
    ghost use Rattle.std.specs.Coded.{coded_ℕ, coded×, coded_list};
    ghost use Rattle.std.specs.FinSet as set;
    ghost use Rattle.rv_core.specs.Opened.{Open};

    ghost Value = { Open };

    ghost coded = { coded_list (coded× coded_ℕ (coded_list (set.code coded_ℕ))) };

    ghost view = { λ s. s.map.value };
}

impl Sessions {
    ghost use Rattle.rv_core.specs.Opened.{letters_in, Extends, IsNotTaken, Closes};

    /// No session.
    pub(crate) fn none(alloc: Global) -> M<Sessions>
        ensures { IfOk result (λ made. made ≡ []) }
    {
        let map = Rc::new(alloc, SessionMap::new(alloc))?;
        Ok(Sessions { map })
    }

    /// The same, in constant time and with no memory.
    pub(crate) fn share(&self) -> M<Sessions>
        ensures { IfOk result (λ made. made ≡ self.now) }
    {
        let map = self.map.clone()?;
        Ok(Sessions { map })
    }

    /// How many sessions are open: at most 1,024.
    pub(crate) fn len(&self) -> u32
        ensures { result ≡ length self.now }
    {
        self.map.len()
    }

    /// The letters of a session, where it is open: 1 to 1,024.
    pub(crate) fn letters(&self, number: u32) -> Option<&Letters>
        ensures letters { option_copied result ≡ letters_in number self.now }
        ensures some { IfSome result (λ word. 1 ≤ length word.now) }
        ensures few { IfSome result (λ word. length word.now ≤ 1024) }
    {
        self.map.letters(number)
    }

    /// As `SessionMap::extend`.
    pub(crate) fn extend(
        &mut self,
        alloc: Global,
        number: u32,
        letter: LetterMask,
    ) -> Result<(), RvError>
        ensures extended { OnOk result (Extends number letter self.old self.new) }
        ensures refused { IfErr result (IsNotTaken number self.old) }
        ensures unchanged { OnErr result (self.new ≡ self.old) }
    {
        match Rc::make_mut(&mut self.map) {
            Ok(map) => map.extend(alloc, number, letter),
            Err(_) => Err(RvError::Memory),
        }
    }

    /// As `SessionMap::close`. Refused it changes nothing.
    pub(crate) fn close(&mut self, number: u32) -> M<()>
        requires { IsSome (letters_in number self.old) }
        ensures closed { OnOk result (Closes number self.old self.new) }
        ensures unchanged { OnErr result (self.new ≡ self.old) }
    {
        Rc::make_mut(&mut self.map)?.close(number);
        Ok(())
    }
}
