//! Why a place cannot be read.
ghost use Rattle.std.specs.Prelude.{◌≡◌};
ghost use Rattle.sheets.specs.Faults.{no_such_place, deeper as deeper_fault};

use axioms::Cause;

/// A cause, the place on the sheet where the fault arose, and how many layers handed it up.
#[derive(Clone, Copy, PartialEq, Eq, Debug)]
pub struct Fault {
    pub cause: Cause,
    pub place: usize,
    pub depth: u8,
}

impl Fault {
    /// What any sheet answers at or past its end.
    pub fn no_such_place(place: usize) -> Fault
        ensures arises_there { result ≡ no_such_place place }
    {
        Fault {
            cause: Cause::NoSuchPlace,
            place,
            depth: 0,
        }
    }

    /// The fault as the next layer hands it up.
    pub fn deeper(self) -> Fault
        ensures one_deeper { result ≡ deeper_fault self }
    {
        Fault {
            depth: self.depth.saturating_add(1),
            ..self
        }
    }
}
