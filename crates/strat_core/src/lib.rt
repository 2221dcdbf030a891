//! Checks of circuits against formulas with universal and then existential quantifiers, where a
//! strategy circuit chooses the existential executions.
#![tactic(auto)]

mod checked;
mod checking;
mod failing;
mod laws;
mod refusal;

pub use checked::StrategyChecked;
pub use checking::check_strategy;
pub use laws::{driven_nets_have_room, one_reading, one_verdict, strategies_satisfy};
pub use refusal::StrategyError;
