//! What every layer does with the sheet below it.
ghost use Rattle.std.specs.Prelude.{◌≡◌};
ghost use Rattle.sheets.specs.Contents.{answer};
ghost use Rattle.sheets.specs.Layers.{handed_up};

use crate::faults::Fault;
use crate::sheet::Sheet;
use axioms::Axiom;

/// What the sheet below answers at a place, a fault one deeper. A layer has as many places as the sheet below, so at or
/// past the end the fault is the layer's own.
pub fn read_below<S: Sheet>(below: &S, place: usize) -> Result<Option<Axiom>, Fault>
    ensures answers_the_list_handed_up { result ≡ answer (handed_up (S.Sheet.content below.now)) place }
{
    if place >= below.places() {
        return Err(Fault::no_such_place(place));
    }
    below.at(place).map_err(Fault::deeper)
}
