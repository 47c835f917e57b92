//! What a workbook does with statements and withdrawals.
ghost use Rattle.std.specs.Prelude.{refl};
ghost use Rattle.sheets.specs.Workbooks.{book};

use crate::open_sheet::OpenSheet;
use crate::sheet::Sheet;
use crate::workbook::Workbook;
use axioms::{Axiom, Cause, RawAxiom, check};

#[tactic(auto, using(crate::proofs::Statements::faultless))]
impl OpenSheet for Workbook {
    ghost meaning = { book };

    ghost same_content = { λ w. refl };

    fn is_held(&self) -> bool {
        false
    }

    fn state(&mut self, raw: RawAxiom) -> Result<usize, Cause> {
        let stated = check(raw, self.counts)?;
        // `try_push` would hand back the axiom in an error that is dropped, which is no plainer.
        if self.slots.is_full() {
            return Err(Cause::NoRoom);
        }
        let place = self.slots.len();
        self.slots.push(Some(stated));
        Ok(place)
    }

    fn withdraw(&mut self, place: usize) -> Result<Axiom, Cause> {
        let slot = self.slots.get_mut(place).ok_or(Cause::NoSuchPlace)?;
        let withdrawn = slot.ok_or(Cause::VacantPlace)?;
        // Not by `take`, which writes to a vacant slot too, and takes longer.
        *slot = None;
        Ok(withdrawn)
    }
}
