//! Tests of single layers of circuits: the clauses of queries, worked out by hand, what the solver
//! answers, and public calls that no tool makes. What commands come to is shown by the cases of `cases`.
//! They stand in a crate of their own, since a crate with tests is proved twice.
#![tactic(auto)]

#[cfg(test)]
mod logs;
#[cfg(test)]
mod queries;
#[cfg(test)]
mod signals;
#[cfg(test)]
mod solving;
