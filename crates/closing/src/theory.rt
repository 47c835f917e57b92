//! A theory: two counts, and 1,024 places that each hold an axiom or nothing.
ghost use Rattle.std.specs.Prelude.{◌≡◌, length};
ghost use Rattle.axioms.specs.Axioms.{AllFormed};
ghost use Rattle.closing.specs.Places.{most_places};

use axioms::{Axiom, Counts};

mod filling;
mod stating;

pub const PLACES: usize = 1024;

/// The axioms to be closed, each at its place. In fixed memory and not on the heap, so that no call can run out of memory.
#[derive(Drop)]
pub struct Theory {
    counts: Counts,
    places: [Option<Axiom>; PLACES],
    ghost all_places: { length places ≡ most_places },
    ghost formed: { AllFormed counts.classes counts.properties places },
}
