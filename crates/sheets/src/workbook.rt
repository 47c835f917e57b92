//! The workbook: an open sheet of 512 slots, never held. Slot k is place k - 1.
ghost use Rattle.std.specs.Prelude.{◌≤◌};
ghost use Rattle.arrayvec.specs.ArrayVec.{array_vec_len};
ghost use Rattle.axioms.specs.Axioms.{AllFormed};
ghost use Rattle.sheets.specs.Slots.{most_slots};

use arrayvec::ArrayVec;
use axioms::{Axiom, Counts};

pub(crate) mod as_open_sheet;
pub(crate) mod as_sheet;

/// How many slots a workbook has, used or not.
pub const SLOTS: usize = 512;

/// Its slots are those that statements took, in order. One that was withdrawn stays, and is vacant.
#[derive(Drop)]
pub struct Workbook {
    counts: Counts,
    slots: ArrayVec<Option<Axiom>, SLOTS>,
    ghost few_slots: { array_vec_len slots ≤ most_slots },
    ghost formed: { AllFormed counts.classes counts.properties slots.items },
}
