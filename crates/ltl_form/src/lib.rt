//! Formulas of linear temporal logic, their normal form, and its truth on lassos.
#![tactic(auto)]

mod forms;
mod formulas;
mod meanings;
mod normals;
mod numberings;
mod pairs;

pub use formulas::Ltl;
pub use meanings::holds;
pub use normals::{FormError, Node, Normal, nnf};
