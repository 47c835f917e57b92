//! A layer that shows the axioms of at least a given trust, and the others as vacant.
ghost use Rattle.std.specs.Prelude.{◌≡◌};
ghost use Rattle.sheets.specs.Layers.{floor_content};
ghost use Rattle.sheets.specs.Layering.{floor_sound};

use crate::faults::Fault;
use crate::layers::read_below;
use crate::sheet::Sheet;
use axioms::{Axiom, Trust};

/// The sheet below, with each axiom under the floor shown as vacant.
#[derive(Drop)]
pub struct Floor<S: Sheet> {
    pub below: S,
    pub floor: Trust,
}

impl<S: Sheet> Floor<S> {
    /// A layer over that sheet, owned or lent.
    pub fn over(below: S, floor: Trust) -> Floor<S>
        ensures lies_over_that_sheet { result.below ≡ below }
        ensures at_that_floor { result.floor ≡ floor }
    {
        Floor { below, floor }
    }
}

/// The counts are passed on, as by a lent sheet: a default in the trait would have no sheet to ask.
impl<S: Sheet> Sheet for Floor<S> {
    ghost content = { λ s. floor_content s.floor.value (S.Sheet.content s.below) };

    ghost sound = { λ s. floor_sound _ _ (S.Sheet.sound s.below) };

    fn classes(&self) -> u8 {
        self.below.classes()
    }

    fn properties(&self) -> u8 {
        self.below.properties()
    }

    fn places(&self) -> usize {
        self.below.places()
    }

    fn at(&self, place: usize) -> Result<Option<Axiom>, Fault> {
        let found = read_below(&self.below, place)?;
        Ok(found.filter(|shown| shown.trust >= self.floor.value))
    }
}
