//! The newest trace, while it waits to be put with the others.

ghost use Rattle.std.specs.Prelude.{◌≡◌, List, [], ◌∷◌, Some, None, IfOk, IfSome, IfNone};
ghost use Rattle.trace_trie.specs.Numbered.{Numbered, rest_from, with_number, without_number};
ghost use Rattle.trace_trie.specs.Cursors.{left_waiting};

use hy_base::M;
use hy_bits::LetterMask;
use hy_finite::Trace;
use std::rc::Rc;

/// A trace that waits, with its number.
#[derive(Drop)]
pub(crate) struct Newest {
    pub(crate) number: u32,
    pub(crate) trace: Rc<Trace>,
}

impl Newest {
    ghost use Rattle.trace_trie.specs.Newests.{waiting, IsLast};

    /// The same, where one waits, in constant time and with no memory.
    pub(crate) fn share(newest: &Option<Newest>) -> M<Option<Newest>>
        ensures same { IfOk result (λ made. waiting made ≡ waiting newest.now) }
        ensures last { IfOk result (λ made. (list : List Numbered) → IsLast newest.now list
            → IsLast made list) }
    {
        match newest {
            None => Ok(None),
            Some(Newest { number, trace }) => Ok(Some(Newest {
                number: *number,
                trace: trace.clone()?,
            })),
        }
    }

    /// The same, but none where it has this number. In constant time and with no memory.
    pub(crate) fn without(newest: &Option<Newest>, number: u32) -> M<Option<Newest>>
        ensures same { IfOk result (λ made. waiting made
            ≡ without_number number (waiting newest.now)) }
        ensures last { IfOk result (λ made. (list : List Numbered) → IsLast newest.now list
            → IsLast made list) }
    {
        match newest {
            Some(newest) if newest.number == number => Ok(None),
            _ => Newest::share(newest),
        }
    }

    /// The trace that waits, where it has this number. Takes no memory.
    pub(crate) fn get(newest: &Option<Newest>, number: u32) -> Option<&Trace>
        ensures some { IfSome result (λ t. with_number number (waiting newest.now) ≡ Some t.now) }
        ensures none { IfNone result (with_number number (waiting newest.now) ≡ None) }
    {
        match newest {
            Some(newest) if newest.number == number => Some(&newest.trace),
            _ => None,
        }
    }

    /// The trace that waits, with its number, where that is not below `from`. Takes no memory.
    pub(crate) fn next(newest: &Option<Newest>, from: u32) -> Option<(u32, &Trace)>
        ensures some { IfSome result (λ p. rest_from from (waiting newest.now)
            ≡ (p.0, p.1.now) ∷ []) }
        ensures none { IfNone result (rest_from from (waiting newest.now) ≡ []) }
    {
        match newest {
            Some(newest) if from <= newest.number => Some((newest.number, &newest.trace)),
            _ => None,
        }
    }

    /// Its number and letters, where one waits. Takes no memory.
    pub(crate) fn letters(newest: &Option<Newest>) -> Option<(u32, &[LetterMask])>
        ensures { left_waiting result ≡ waiting newest.now }
    {
        match newest {
            Some(newest) => Some((newest.number, newest.trace.as_slice())),
            None => None,
        }
    }
}
