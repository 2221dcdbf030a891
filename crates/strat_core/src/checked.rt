//! What a check by a strategy comes to.

use aig_net::RunList;
use hy_lasso::LassoList;
use mc_core::Checked;

/// What a check by a strategy comes to.
#[derive(Drop)]
pub enum StrategyChecked {
    /// The strategy wins: whatever lasso executions the universal quantifiers choose, it completes
    /// them by executions with which they satisfy the body.
    Holds,
    /// The strategy does not win: its completion of these runs of the circuit, one for each universal
    /// quantifier, is no tuple of executions, or fails the body with them. The traces are the normal
    /// forms of what is seen of the runs.
    Fails { traces: LassoList, runs: RunList },
    /// The check of the driven net leaves open whether the strategy wins: its depth or its conflicts
    /// did not suffice.
    Unknown(Checked),
}
