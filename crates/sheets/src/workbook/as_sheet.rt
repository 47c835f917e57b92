//! Making a workbook, and what it answers as a sheet.
ghost use Rattle.std.specs.Prelude.{◌≡◌, false, []};
ghost use Rattle.sheets.specs.OpenSheets.{opened};
ghost use Rattle.sheets.specs.Slots.{most_slots};
ghost use Rattle.sheets.specs.Workbooks.{book};
ghost use Rattle.sheets.specs.Slotting.{slots_sound};

use crate::faults::Fault;
use crate::sheet::Sheet;
use crate::workbook::Workbook;
use arrayvec::ArrayVec;
use axioms::{Axiom, Counts};

impl Workbook {
    /// A workbook with no place yet.
    pub fn new(counts: Counts) -> Workbook
        ensures has_no_place_and_all_its_room { book result ≡ opened (record { classes = counts.classes; properties = counts.properties; places = [] }) most_slots false }
    {
        Workbook {
            counts,
            slots: ArrayVec::new(),
        }
    }
}

impl Sheet for Workbook {
    ghost content = { λ w. (book w).content };

    ghost sound = { λ w. slots_sound _ _ _ w.counts.few_classes w.counts.few_properties w.few_slots w.formed };

    fn classes(&self) -> u8 {
        self.counts.classes
    }

    fn properties(&self) -> u8 {
        self.counts.properties
    }

    fn places(&self) -> usize {
        self.slots.len()
    }

    fn at(&self, place: usize) -> Result<Option<Axiom>, Fault> {
        self.slots
            .get(place)
            .copied()
            .ok_or(Fault::no_such_place(place))
    }
}
