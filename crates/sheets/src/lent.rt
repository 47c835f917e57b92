//! A sheet that is lent.
use crate::faults::Fault;
use crate::sheet::Sheet;
use axioms::Axiom;

/// A shared reference to a sheet is a sheet, so a layer over a lent sheet leaves it to its owner. Each question is passed
/// on, as by the floor: a default in the trait would have no sheet to ask.
impl<S: Sheet> Sheet for &S {
    ghost content = { λ s. S.Sheet.content s.now };

    ghost sound = { λ s. S.Sheet.sound s.now };

    fn classes(&self) -> u8 {
        (**self).classes()
    }

    fn properties(&self) -> u8 {
        (**self).properties()
    }

    fn places(&self) -> usize {
        (**self).places()
    }

    fn at(&self, place: usize) -> Result<Option<Axiom>, Fault> {
        (**self).at(place)
    }
}
