//! Which variable is decided next: the one that had most to do with the last conflicts, with the
//! value that it had last. No proof rests on the choice.

ghost use Rattle.std.specs.Prelude.{◌≡◌, ◌+◌, ◌*◌, ◌<◌, ◌≤◌, ◌^◌, length, All};

use chain_check::Literal;
use hy_base::M;
use std::alloc::Global;

/// Activities above this are scaled down.
const MOST: f64 = 1e100;
/// By how much they are then scaled.
const SCALE: f64 = 1e-100;
/// By how much a conflict weighs more than the one before it.
const GROWTH: f64 = 1.0 / 0.95;
/// The place of what is not in the heap, past all of it.
const NOWHERE: u32 = u32::MAX;

/// The variables in the order of their activity.
///
/// In the heap stand variables, each at most as active as the one above it; the ones that are no
/// longer open are let go as they come to the top.
#[derive(Drop)]
pub struct Order {
    /// By variable: how much it had to do with conflicts.
    activities: Vec<f64>,
    /// What the next conflict adds.
    step: f64,
    /// By variable: its last value.
    phases: Vec<bool>,
    /// By variable: its place in the heap.
    places: Vec<u32>,
    /// The heap, and behind its first `size` variables what is left of old ones.
    heap: Vec<u32>,
    size: usize,
    ghost phased: { length phases.items ≡ length activities.items },
    ghost placed: { length places.items ≡ length activities.items },
    ghost few: { length activities.items ≤ 2 ^ 31 },
    ghost short: { length heap.items ≤ 2 ^ 31 },
    ghost inside: { size ≤ length heap.items },
    ghost right: { All (λ v. v < length activities.items) heap.items },
}

impl Order {
    /// The variables below `count`, of which 0 is none. All are as active, and false.
    pub fn new(alloc: Global, count: usize) -> M<Order>
        requires { count ≤ 2 ^ 31 }
    {
        let mut places = Vec::new(alloc);
        let mut heap = Vec::new(alloc);
        for variable in 0..count {
            places.push(variable as u32)?;
            heap.push(variable as u32)?;
        }
        Ok(Order {
            activities: vec![in alloc; 0.0; count]?,
            step: 1.0,
            phases: vec![in alloc; false; count]?,
            places,
            heap,
            size: count,
        })
    }

    /// The literal of the most active variable of the heap, which it leaves.
    pub fn pop(&mut self) -> Option<Literal> {
        if self.size == 0 {
            return None;
        }
        let top = self.heap[0] as usize;
        let number = top as i32;
        let l = Literal::new(if self.phases[top] { number } else { -number });
        self.places[top] = NOWHERE;
        self.size -= 1;
        if 0 < self.size {
            self.heap[0] = self.heap[self.size];
            self.sink(0);
        }
        Some(l)
    }

    /// Takes back the variable of a literal that is no longer true, and keeps its value. A literal
    /// of another variable changes nothing.
    pub fn release(&mut self, l: Literal) {
        let variable = l.variable();
        if self.activities.len() <= variable {
            return;
        }
        self.phases[variable] = 0 < l.number();
        if self.places[variable] == NOWHERE && self.size < self.heap.len() {
            let place = self.size;
            self.heap[place] = variable as u32;
            self.size += 1;
            self.rise(place);
        }
    }

    /// Counts that the literal's variable had to do with this conflict. A literal of another
    /// variable changes nothing.
    pub fn bump(&mut self, l: Literal) {
        let variable = l.variable();
        if self.activities.len() <= variable {
            return;
        }
        let place = self.places[variable] as usize;
        self.activities[variable] += self.step;
        if MOST < self.activities[variable] {
            self.scale();
        }
        self.rise(place);
    }

    /// Ends a conflict: the next one weighs more.
    pub fn end_conflict(&mut self) {
        self.step *= GROWTH;
    }

    /// Scales all activities down.
    fn scale(&mut self) {
        for place in 0..self.activities.len() {
            self.activities[place] *= SCALE;
        }
        self.step *= SCALE;
    }

    /// Moves the variable at `place` of the heap, if there is one, up to where it belongs.
    fn rise(&mut self, place: usize) {
        if self.size <= place {
            return;
        }
        let mut place = place;
        let variable = self.heap[place];
        let activity = self.activities[variable as usize];
        while 0 < place {
            let above = (place - 1) / 2;
            let other = self.heap[above];
            if activity <= self.activities[other as usize] {
                break;
            }
            self.heap[place] = other;
            self.places[other as usize] = place as u32;
            place = above;
        }
        self.heap[place] = variable;
        self.places[variable as usize] = place as u32;
    }

    /// Moves the variable at `place` of the heap down to where it belongs.
    fn sink(&mut self, place: usize) {
        if self.size <= place {
            return;
        }
        let mut place = place;
        let variable = self.heap[place];
        let activity = self.activities[variable as usize];
        while 2 * place + 1 < self.size {
            let below = self.below(place);
            let other = self.heap[below];
            if self.activities[other as usize] <= activity {
                break;
            }
            self.heap[place] = other;
            self.places[other as usize] = place as u32;
            place = below;
        }
        self.heap[place] = variable;
        self.places[variable as usize] = place as u32;
    }

    /// Of the one or two places below `place`, the one with the more active variable.
    fn below(&self, place: usize) -> usize
        requires { 2 * place + 1 < self.now.size }
        ensures inside { result < self.now.size }
        ensures after { place < result }
    {
        let left = 2 * place + 1;
        let right = left + 1;
        if right < self.size
            && self.activities[self.heap[left] as usize]
                < self.activities[self.heap[right] as usize]
        {
            right
        } else {
            left
        }
    }
}
