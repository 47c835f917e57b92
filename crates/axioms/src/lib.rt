//! Axioms between named classes and properties, and the causes for which a call is refused.
#![tactic(auto)]

mod axiom_check;
mod axiom_types;
mod causes;
mod counts;
mod kinds;
mod trust;

pub use crate::axiom_check::check;
pub use crate::axiom_types::{Axiom, RawAxiom};
pub use crate::causes::Cause;
pub use crate::counts::Counts;
pub use crate::kinds::{Kind, Sort};
pub use crate::trust::Trust;
