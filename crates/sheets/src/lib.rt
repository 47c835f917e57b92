//! Sheets of axioms: what a sheet is, the workbook, and the floor layer.
#![tactic(auto)]

mod faults;
mod floor;
mod layers;
mod lent;
mod open_sheet;
mod sheet;
mod workbook;

pub use crate::faults::Fault;
pub use crate::floor::Floor;
pub use crate::layers::read_below;
pub use crate::open_sheet::OpenSheet;
pub use crate::sheet::Sheet;
pub use crate::workbook::{SLOTS, Workbook};
