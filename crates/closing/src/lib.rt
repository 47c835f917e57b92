//! The closing: which relations can be derived from axioms, and which names are empty under them.
#![tactic(auto)]

mod cases;
mod names;
mod relations;
mod stages;
mod steps;
mod theory;

pub use crate::cases::{cases_are_right, rules_are_sound};
pub use crate::names::Name;
pub use crate::stages::{Stage, Stage1, Stage2, Stage3, Stage4, Stage5};
pub use crate::theory::{PLACES, Theory};
