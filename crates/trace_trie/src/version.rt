//! Versions of a trie.

ghost use Rattle.std.specs.Prelude.{◌≡◌, ℕ, ◌<◌, List, [], ◌∷◌, ◌++◌, Some, None, IfOk, IfSome, IfNone, IsSome, is_some, option_map};
ghost use Rattle.hy_formula.specs.Quantifiers.{Each};
ghost use Rattle.trace_trie.specs.Numbered.{Numbered, IsAscending, AreTraces, rest_from, with_number, without_number};
ghost use Rattle.trace_trie.specs.Cursors.{rests_at};

use crate::base::Base;
use crate::cursor::Cursor;
use crate::newest::Newest;
use hy_base::{M, Remake};
use hy_finite::Trace;
use std::alloc::Global;
use std::marker::Model;
use std::rc::Rc;

/// Traces with their numbers, which ascend; contracts see the list of these pairs. Versions share
/// their nodes, and no call on one changes another. The newest trace waits to be put with the
/// others, until the next comes.
pub struct Version {
    alloc: Global,
    base: Rc<Base>,
    newest: Option<Newest>,
}

impl Model for Version {
    ghost use Rattle.std.specs.Prelude.{ℕ, List, ◌++◌};
    ghost use Rattle.std.specs.Coded.{coded_ℕ, coded_list, coded×};
    ghost use Rattle.std.specs.FinSet as set;
    ghost use Rattle.hy_bits.specs.Letter.{Letter};
    ghost use Rattle.trace_trie.specs.Newests.{waiting};
    ghost use Rattle.trace_trie.specs.Versions.{IsVersion};

    ghost Value = { List (ℕ × List Letter) };

    ghost coded = { coded_list (coded× coded_ℕ (coded_list (set.code coded_ℕ))) };

    ghost view = { λ v. v.base.value ++ waiting v.newest };

    ghost invariant = { λ v. IsVersion (v.base.value ++ waiting v.newest) };
}

impl Drop for Version {
    /// Lets the nodes go that no other version has. The stack is as deep as the trie.
    fn drop(self) {
        let Version {
            alloc: _,
            base: _,
            newest: _,
        } = self;
    }
}

impl Version {
    /// No trace.
    pub fn new(alloc: Global) -> M<Version>
        ensures { IfOk result (λ made. made ≡ []) }
    {
        let base = Rc::new(alloc, Base::new())?;
        Ok(Version {
            alloc,
            base,
            newest: None,
        })
    }

    /// An equal version that shares all nodes, in constant time.
    pub fn share(&self) -> M<Version>
        ensures { IfOk result (λ made. made ≡ self.now) }
    {
        let base = self.base.clone()?;
        let newest = Newest::share(&self.newest)?;
        Ok(Version {
            alloc: self.alloc,
            base,
            newest,
        })
    }

    /// The numbers ascend, and each trace has 1 to 1,024 letters.
    pub fn numbers_ascend(&self)
        ensures ascending { IsAscending self.now }
        ensures traces { AreTraces self.now }
    {
        let _base = &self.base;
    }

    /// The same traces, of which none waits any more to be put with the others. So a version that
    /// has been settled is shared, and one trace more put beside it, in constant time. Nodes that
    /// no other version has are changed in place, the others copied: those of the front that the
    /// newest trace has in common with another, in time and memory at most 64 times as much, and
    /// logarithmic in the number of traces. Refused all is as before.
    pub fn settle(&mut self) -> M<()>
        ensures { self.new ≡ self.old }
    {
        if self.newest.is_some() {
            Rc::make_mut(&mut self.base)?.take_in(self.alloc, &self.newest)?;
            self.newest = None;
        }
        Ok(())
    }

    /// This version with one trace more, whose number is above all. Its letters are copied once. It
    /// waits to be put with the others; where one waited before, that is put with them in the new
    /// version, in time and memory as `settle`.
    pub fn insert(&self, number: u32, trace: &Trace) -> M<Version>
        requires { Each (λ (p : Numbered). p.0 < number) self.now }
        ensures { IfOk result (λ made. made ≡ self.now ++ (number, trace.now) ∷ []) }
    {
        prove!(trace.len() > 0);
        let trace = Rc::new(self.alloc, trace.remake(self.alloc)?)?;
        let base = self.settled()?;
        let newest = Some(Newest { number, trace });
        Ok(Version {
            alloc: self.alloc,
            base,
            newest,
        })
    }

    /// All traces, of which none waits.
    fn settled(&self) -> M<Rc<Base>>
        ensures { IfOk result (λ made. made.value ≡ self.now) }
    {
        let mut base = self.base.clone()?;
        if self.newest.is_some() {
            Rc::make_mut(&mut base)?.take_in(self.alloc, &self.newest)?;
        }
        Ok(base)
    }

    /// This version without the trace of a number. In time and memory linear in its letters, at most
    /// 64 times as much, and logarithmic in the number of traces; nothing is copied.
    pub fn without(&self, number: u32) -> M<Version>
        ensures { IfOk result (λ made. made ≡ without_number number self.now) }
    {
        match self.get(number) {
            None => self.share(),
            Some(trace) => {
                let base = Rc::new(self.alloc, self.base.without(self.alloc, number, trace)?)?;
                let newest = Newest::without(&self.newest, number)?;
                Ok(Version {
                    alloc: self.alloc,
                    base,
                    newest,
                })
            }
        }
    }

    /// Whether there is a trace with the number. Takes no memory, and time logarithmic in the
    /// number of traces.
    pub fn has(&self, number: u32) -> bool
        ensures { result ≡ is_some (with_number number self.now) }
    {
        self.get(number).is_some()
    }

    /// The trace with the least number from `from` on, with its number. Takes no memory, and time
    /// logarithmic in the number of traces.
    pub fn next(&self, from: u32) -> Option<(u32, &Trace)>
        ensures some { IfSome result (λ p. (more : List Numbered)
            × (rest_from from self.now ≡ (p.0, p.1.now) ∷ more)) }
        ensures none { IfNone result (rest_from from self.now ≡ []) }
    {
        match self.base.next(from) {
            Some(found) => Some(found),
            None => Newest::next(&self.newest, from),
        }
    }

    /// The trace with the number, where there is one, in time linear in its letters.
    pub fn trace(&self, number: u32) -> M<Option<Trace>>
        ensures { IfOk result (λ t. t ≡ with_number number self.now) }
    {
        match self.get(number) {
            None => Ok(None),
            Some(trace) => Ok(Some(trace.remake(self.alloc)?)),
        }
    }

    /// The node that all traces pass. Takes no memory.
    pub fn root(&self) -> Cursor<'_>
        ensures { rests_at result ≡ self.now }
    {
        self.base.root(Newest::letters(&self.newest))
    }

    /// The trace with the number, where there is one. Takes no memory.
    fn get(&self, number: u32) -> Option<&Trace>
        ensures some { IfSome result (λ t. with_number number self.now ≡ Some t.now) }
        ensures none { IfNone result (with_number number self.now ≡ None) }
    {
        match self.base.get(number) {
            Some(trace) => Some(trace),
            None => Newest::get(&self.newest, number),
        }
    }
}
