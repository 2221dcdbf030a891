//! The codes that a trace gives at a place, position by position.

ghost use Rattle.std.specs.Prelude.{◌≡◌, map, IfOk};
ghost use Rattle.fin_monitor.specs.Codes.{part_of};
ghost use Rattle.fin_monitor.specs.Seen.{machine_of};

use fin_monitor::Monitor;
use hy_base::{List, M, NumList};
use hy_bits::LetterMask;
use std::alloc::Global;

/// The parts of the codes of joint letters that the letters give for the variable of a place. In
/// time linear in the letters, times the atoms.
pub(crate) fn column(alloc: Global, m: &Monitor, place: u8, t: &[LetterMask]) -> M<NumList>
    ensures { IfOk result (λ made. made ≡ map (part_of (machine_of m.now).atoms place) t.now) }
{
    let mut parts = List::new(alloc);
    for letter in t {
        parts.push(m.part(place, *letter))?;
    }
    Ok(parts)
}
