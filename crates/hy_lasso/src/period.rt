//! How lassos repeat together.

ghost use Rattle.std.specs.Prelude.{◌≡◌, ◌<◌, ◌≤◌, ◌+◌, ◌++◌, ◌∷◌, ◌↔◌, [], ℕ, List, length, All, IsTrue, MatchOption};
ghost use Rattle.hy_bits.specs.Letter.{Letter};
ghost use Rattle.hy_formula.specs.Lassos.{Lasso as Endless};
ghost use Rattle.hy_lasso.specs.Words.{picked};
ghost use Rattle.hy_lasso.specs.Joint.{most_positions, IsLeastPeriod, IsJudged, IsCommon, IsLeastCommon};

use crate::lasso::{Lasso, LassoList};

/// Most positions of a stem and a cycle on which a body is judged.
pub const MOST_POSITIONS: usize = 4_194_304;

/// From position `stem` on words repeat after `cycle` positions.
#[derive(Clone, Copy, Debug)]
pub struct Period {
    pub stem: usize,
    pub cycle: usize,
    pub ghost some: { 0 < cycle },
    pub ghost few: { stem + cycle ≤ most_positions },
}

impl Period {
    /// The period of the picked lassos: their longest stem, and the least common multiple of their
    /// cycles. `None` exactly where these have together more than 4,194,304 positions. In time
    /// linear in `pick` and, at most, in these positions.
    pub fn of_picked(list: &LassoList, pick: &[u32]) -> Option<Period>
        requires { All (λ k. k < length list.now) pick.now }
        ensures { let tuple = picked list.now pick.now in
            MatchOption result (¬ IsJudged tuple) (λ p. IsLeastPeriod tuple p.stem p.cycle) }
    {
        let mut period = Period::of_none();
        for k in pick {
            let Some(more) = period.with(list.at(*k as usize)) else {
                return None;
            };
            period = more;
        }
        Some(period)
    }

    /// The period of all lassos of the list, as `of_picked`.
    pub fn of_list(list: &LassoList) -> Option<Period>
        ensures { MatchOption result (¬ IsJudged list.now)
            (λ p. IsLeastPeriod list.now p.stem p.cycle) }
    {
        let mut period = Period::of_none();
        for lasso in list.as_slice() {
            let Some(more) = period.with(lasso) else {
                return None;
            };
            period = more;
        }
        Some(period)
    }

    /// The period of no lasso.
    fn of_none() -> Period
        ensures { IsLeastPeriod [] result.stem result.cycle }
    {
        Period { stem: 0, cycle: 1 }
    }

    /// The period with one more lasso.
    fn with(self, lasso: &Lasso) -> Option<Period>
        ensures { (tuple : List (Endless Letter)) → IsLeastPeriod tuple self.stem self.cycle
            → MatchOption result
            ((more : List (Endless Letter)) → ¬ IsJudged (tuple ++ lasso.now ∷ more))
            (λ p. IsLeastPeriod (tuple ++ lasso.now ∷ []) p.stem p.cycle) }
    {
        let stem = lasso.stem().len().max(self.stem);
        let Some(cycle) = common_multiple(self.cycle, lasso.cycle().len()) else {
            return None;
        };
        if stem > MOST_POSITIONS - cycle {
            return None;
        }
        Some(Period { stem, cycle })
    }
}

/// Whether formulas can be judged on the list: whether the longest stem and the least common multiple
/// of the cycles of all its lassos have together at most 4,194,304 positions. In time linear in the
/// list and, at most, in these positions.
pub fn are_judged(list: &LassoList) -> bool
    ensures { IsTrue result ↔ IsJudged list.now }
{
    Period::of_list(list).is_some()
}

/// The least common multiple of two numbers. `None` exactly where it is past 4,194,304. In time
/// linear in the quotient of the multiple and `c`.
fn common_multiple(c: usize, n: usize) -> Option<usize>
    requires first { 0 < c }
    requires few { c ≤ most_positions }
    requires second { 0 < n }
    ensures { MatchOption result ((d : ℕ) → IsCommon c n d → most_positions < d)
        (λ m. IsLeastCommon c n m × (m ≤ most_positions)) }
{
    let mut multiple = c;
    while multiple <= MOST_POSITIONS {
        if multiple % n == 0 {
            return Some(multiple);
        }
        multiple += c;
    }
    None
}
