//! Clauses, logs of learned clauses, and the exact checker of logs.
#![tactic(auto)]

mod checker;
mod clauses;
mod following;
mod laws;
mod literal;
mod logs;
mod partial;
mod printing;

pub use checker::{Checker, check};
pub use clauses::{Clauses, Cnf};
pub use laws::{counted, new_clauses, passed_clauses, refuted};
pub use literal::Literal;
pub use logs::{Clause, Learned, Log};
pub use partial::{Open, Partial};
pub use printing::print_log;
