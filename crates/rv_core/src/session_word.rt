//! The letters of one session.

ghost use Rattle.std.specs.Prelude.{◌≡◌, ◌++◌, ◌∷◌, [], IfOk, OnOk, OnErr};

use hy_base::{List, M};
use hy_bits::{LetterMask, Letters};
use std::alloc::{AllocError, Global};
use std::marker::Model;
use std::rc::Rc;

/// The letters of a session, which saves share. Contracts see the list of them.
#[derive(Drop)]
pub(crate) struct SessionWord {
    letters: Rc<Letters>,
}

impl Model for SessionWord {
    ghost use Rattle.std.specs.Prelude.{List};
    ghost use Rattle.std.specs.Coded.{coded_ℕ, coded_list};
    ghost use Rattle.std.specs.FinSet as set;
    ghost use Rattle.hy_bits.specs.Letter.{Letter};

    ghost Value = { List Letter };

    ghost coded = { coded_list (set.code coded_ℕ) };

    ghost view = { λ w. w.letters.value };
}

impl SessionWord {
    /// One letter.
    pub(crate) fn one(alloc: Global, letter: LetterMask) -> M<SessionWord>
        ensures { IfOk result (λ made. made ≡ letter ∷ []) }
    {
        let mut letters = List::new(alloc);
        letters.push(letter)?;
        let letters = Rc::new(alloc, letters)?;
        Ok(SessionWord { letters })
    }

    /// The letters.
    pub(crate) fn letters(&self) -> &Letters
        ensures { result.now ≡ self.now }
    {
        &self.letters
    }

    /// Puts a letter last, in constant time but for growth; where a save shares the letters, they
    /// are copied first. Refused it changes nothing.
    pub(crate) fn push(&mut self, alloc: Global, letter: LetterMask) -> M<()>
        ensures added { OnOk result (self.new ≡ self.old ++ letter ∷ []) }
        ensures unchanged { OnErr result (self.new ≡ self.old) }
    {
        match Rc::get_mut(&mut self.letters) {
            Some(letters) => letters.push(letter),
            None => {
                let mut letters = self.letters.copy(alloc)?;
                letters.push(letter)?;
                self.letters = Rc::new(alloc, letters)?;
                Ok(())
            }
        }
    }
}

impl Clone for SessionWord {
    ghost is_clone = { λ w copy. copy ≡ w };

    /// The same letters, in constant time and with no memory.
    fn clone(&self) -> Result<SessionWord, AllocError> {
        let letters = self.letters.clone()?;
        Ok(SessionWord { letters })
    }
}
