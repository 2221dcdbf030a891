//! Tests of single layers: of public calls that no program makes, that memory can suffice for them,
//! and of what no case can show. What commands come to is shown by the cases of `cases`. They stand in
//! a crate of their own, since a crate with tests is proved twice.
#![tactic(auto)]

#[cfg(test)]
mod branches_of_sets;
#[cfg(test)]
mod counted_runs;
#[cfg(test)]
mod finite_traces;
#[cfg(test)]
mod jobs;
#[cfg(test)]
mod letters;
#[cfg(test)]
mod made_formulas;
#[cfg(test)]
mod rows_of_bits;
#[cfg(test)]
mod streams;
#[cfg(test)]
mod tries;
