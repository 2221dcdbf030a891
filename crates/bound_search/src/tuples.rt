//! Tuples, which have the number of a member for each quantifier, and their places among the
//! choices of members for some variables.

ghost use Rattle.std.specs.Prelude.{◌≡◌, ◌<◌, ◌≤◌, ◌^◌, All, length, slice_index_or, IfOk};
ghost use Rattle.bound_search.specs.Making.{IsFrame};
ghost use Rattle.bound_search.specs.Sheets.{member_at, place_among, tuple_at};

use crate::frame::Frame;
use hy_base::{List, M, Memory, NumList};
use std::alloc::Global;

/// As many choices as a list has room for.
const MOST_CHOICES: usize = 2_147_483_647;

/// How many choices there are for so many variables. For more than a list has room for there is no
/// memory either.
pub fn choices(frame: Frame, variables: usize) -> M<usize>
    requires { IsFrame frame }
    ensures count { IfOk result (λ all. all ≡ frame.traces ^ variables) }
    ensures few { IfOk result (λ all. all < 2 ^ 63) }
{
    let mut all = 1;
    for _variable in 0..variables {
        if all > MOST_CHOICES {
            return Err(Memory);
        }
        all *= frame.traces;
    }
    Ok(all)
}

/// The member for a variable; 0 where the tuple has none.
fn member_of(tuple: &NumList, v: u32) -> u32
    ensures { result ≡ slice_index_or tuple.now v 0 }
{
    let place = v as usize;
    if place < tuple.len() {
        *tuple.at(place)
    } else {
        0
    }
}

/// The place of a tuple among the choices for these variables.
pub fn place_among(frame: Frame, variables: &NumList, tuple: &NumList) -> usize
    requires frame { IsFrame frame }
    requires members { All (λ k. k < frame.traces) tuple.now }
    requires room { frame.traces ^ length variables.now < 2 ^ 63 }
    ensures place { result ≡ place_among frame.traces variables.now tuple.now }
    ensures within { result < frame.traces ^ length variables.now }
{
    let mut place = 0;
    for i in (0..variables.len()).rev() {
        place = place * frame.traces + member_of(tuple, *variables.at(i)) as usize;
    }
    place
}

/// The member for a variable in the choice at a place; member 0 for any other variable.
fn member_at(frame: Frame, variables: &NumList, place: usize, v: usize) -> u32
    requires { IsFrame frame }
    ensures member { result ≡ member_at frame.traces variables.now place v }
    ensures few { result < frame.traces }
{
    let mut rest = place;
    for u in variables.as_slice() {
        if v == *u as usize {
            return (rest % frame.traces) as u32;
        }
        rest /= frame.traces;
    }
    0
}

/// The tuple of the choice at a place.
pub fn tuple_at(alloc: Global, frame: Frame, variables: &NumList, place: usize) -> M<NumList>
    requires { IsFrame frame }
    ensures tuple { IfOk result (λ tuple. tuple ≡ tuple_at frame variables.now place) }
    ensures members { IfOk result (All (λ k. k < frame.traces)) }
{
    let mut tuple = List::new(alloc);
    for v in 0..frame.quantifiers {
        tuple.push(member_at(frame, variables, place, v))?;
    }
    Ok(tuple)
}
