//! HyperLTL formulas: quantifiers over traces, and a body over the names in their letters.
#![tactic(auto)]

mod atom;
mod atoms;
mod body;
mod classes;
mod copies;
mod formula;
pub mod laws;
mod name_table;
mod prefix;

pub use atom::Atom;
pub use atoms::{AtomList, atoms_of, names_of};
pub use body::{Body, conjoin, rename};
pub use classes::Class;
pub use copies::copy_formulas;
pub use formula::{Formula, class, negate};
pub use name_table::{NameError, NameTable};
pub use prefix::{Prefix, Quant};
