//! Tables of relations between names below 64: closing them, and their products.
#![tactic(auto)]

mod chains;
mod name_set;
mod products;
mod signed;
mod span;
mod table;

pub use crate::signed::SignedTable;
pub use crate::span::Span;
pub use crate::table::Table;
