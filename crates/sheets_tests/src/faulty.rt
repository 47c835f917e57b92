//! A sheet with one place, which is faulty.
ghost use Rattle.std.specs.Prelude.{[], ◌∷◌, Err};
ghost use Rattle.std.proofs.Common.{rules};

use axioms::Axiom;
use sheets::{Fault, Sheet};

#[derive(Clone, Copy)]
pub struct FaultySheet(pub Fault);

impl Sheet for FaultySheet {
    ghost content = { λ s. record { classes = 0; properties = 0; places = Err s.0 ∷ [] } };

    ghost sound = { Prim.search rules };

    fn classes(&self) -> u8 {
        0
    }

    fn properties(&self) -> u8 {
        0
    }

    fn places(&self) -> usize {
        1
    }

    fn at(&self, place: usize) -> Result<Option<Axiom>, Fault> {
        if place == 0 {
            return Err(self.0);
        }
        Err(Fault::no_such_place(place))
    }
}
