//! The numbers that the variables of a step have in the queries: only those that matter to the target
//! have one.

ghost use Rattle.std.specs.Prelude.{◌+◌, ◌*◌, ◌≤◌, ◌^◌, IfOk};
ghost use Rattle.aig_net.specs.Nets.{variables};

use crate::cone::Cone;
use chain_check::Literal;
use hy_base::M;
use live_safe::SafeNet;
use std::alloc::Global;

/// The literals of a variable.
#[derive(Clone, Copy)]
pub struct Pair {
    /// That says that it is 1.
    pub one: Literal,
    /// That says that it is 0.
    pub zero: Literal,
}

impl Pair {
    /// That says that it has this value.
    pub(crate) fn of(self, value: bool) -> Literal {
        if value { self.one } else { self.zero }
    }

    /// The other way round.
    fn opposite(self) -> Pair {
        Pair {
            one: self.zero,
            zero: self.one,
        }
    }

    /// Where the value stands among those of all variables.
    pub(crate) fn place(self) -> usize {
        self.one.variable().saturating_sub(1)
    }
}

/// The literals of the variables of a net before a step and after it.
#[derive(Drop)]
pub struct Numbers {
    before: Vec<Option<Pair>>,
    after: Vec<Option<Pair>>,
    /// How many variables have a number.
    pub many: u32,
    ghost few: { many ≤ 2 ^ 24 },
}

/// Numbers the marked ones of so many variables, where `many` have a number. How many then have one.
fn push_pairs(pairs: &mut Vec<Option<Pair>>, marks: &[bool], variables: u32, many: u32) -> M<u32>
    requires { many + variables ≤ 2 ^ 24 }
    ensures { IfOk result (λ all. all ≤ many + variables) }
{
    let mut all = many;
    for variable in 0..variables {
        if marks.get(variable as usize) == Some(&true) {
            all += 1;
            let number = all as i32;
            pairs.push(Some(Pair {
                one: Literal::new(number),
                zero: Literal::new(-number),
            }))?;
        } else {
            pairs.push(None)?;
        }
    }
    Ok(all)
}

impl Numbers {
    /// Those of a cone, in time linear in the net.
    pub(crate) fn new(alloc: Global, safe: &SafeNet, cone: &Cone) -> M<Numbers>
        requires { 2 * variables safe.now.net ≤ 2 ^ 24 }
    {
        let variables = safe.net.variables();
        let mut before = Vec::new(alloc);
        let many = push_pairs(&mut before, cone.before.as_slice(), variables, 0)?;
        let mut after = Vec::new(alloc);
        let many = push_pairs(&mut after, cone.after.as_slice(), variables, many)?;
        Ok(Numbers {
            before,
            after,
            many,
        })
    }

    /// The literals of a variable before the step.
    pub(crate) fn before(&self, variable: usize) -> Option<Pair> {
        self.before.get(variable).copied().flatten()
    }

    /// The literals of a variable after the step.
    pub(crate) fn after(&self, variable: usize) -> Option<Pair> {
        self.after.get(variable).copied().flatten()
    }

    /// A literal of the net and its opposite, after the step.
    pub(crate) fn after_literal(&self, literal: u32) -> Option<Pair> {
        let pair = self.after(literal as usize / 2)?;
        Some(if literal % 2 == 0 {
            pair
        } else {
            pair.opposite()
        })
    }

    /// The literals of a variable of two whole frames, counted from 0.
    fn pair(&self, variable: usize) -> Option<Pair> {
        match variable.checked_sub(self.before.len()) {
            Some(later) => self.after(later),
            None => self.before(variable),
        }
    }

    /// Puts the numbers of a clause in place of what its literals are called in two whole frames.
    /// Whether each has one.
    pub(crate) fn translate(&self, clause: &[Literal], numbers: &mut Vec<i32>) -> M<bool> {
        numbers.clear();
        for literal in clause {
            let variable = literal.variable().saturating_sub(1);
            match self.pair(variable) {
                Some(pair) => numbers.push(pair.of(literal.number() > 0).number())?,
                None => return Ok(false),
            }
        }
        Ok(true)
    }
}
