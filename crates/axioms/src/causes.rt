//! Why a call is refused.
ghost use Rattle.std.specs.Prelude.{◌≡◌, ◌==◌, Some};
ghost use Rattle.std.specs.Cmp as Keys;
ghost use Rattle.std.specs.Cmp.Rules.{comparing};
ghost use Rattle.std.specs.Fmt.{decimal};
ghost use Rattle.std.proofs.Common.{rules};
ghost use Rattle.axioms.specs.Causes.{number as cause_number};

use std::error::Error;
use std::fmt;

/// docs/REFUSALS.md says which call is refused with which of these, and in which order.
#[derive(Clone, Copy, Eq, Debug)]
pub enum Cause {
    /// There is no such place.
    NoSuchPlace = 1,
    /// The place holds no axiom.
    VacantPlace = 2,
    /// The line has not the form of a listing's line.
    MalformedLine = 3,
    /// The line does not end with byte 10.
    UnendedLine = 4,
    /// The kind is not 1 to 8.
    UnknownKind = 6,
    /// A name is not below its count, or a count is above 64.
    NameOutOfRange = 7,
    /// The trust or floor is not 1 to 100.
    TrustOutOfRange = 8,
    /// A name is stated to be disjoint from itself.
    EqualNames = 9,
    /// The sheet takes no more statements.
    NoRoom = 10,
    /// The sheet or the place is held by a trial.
    Held = 11,
    /// The place is not standing.
    NotStanding = 12,
    /// The place has not the mark that the call asks for.
    WrongMark = 13,
    /// There is no such class or property.
    NoSuchName = 14,
    /// The name is not empty.
    NotEmpty = 15,
    /// The list or buffer is too short.
    BufferTooShort = 16,
    /// The first line of the listing is of another form, or beyond a limit.
    BadHeader = 17,
    /// The listing has too many bytes or lines.
    ListingTooLong = 18,
    /// The image has another length or header.
    BadImageHeader = 19,
    /// The image's chain of slots goes past those used, or does not rise.
    BrokenChain = 20,
    /// A slot off the image's chain is not zero.
    StraySlot = 21,
}

impl Cause {
    /// The number by which documents and programs name the cause. Like `Kind::code` it is one line: a trait for the two
    /// would be no plainer.
    pub fn number(self) -> u8
        ensures is_the_number { result ≡ cause_number self }
    {
        self as u8
    }
}

/// Written out and not derived, so that what makes two causes equal is a clause of this crate, with a body to hold it.
impl PartialEq for Cause {
    /// Causes are equal exactly when their numbers are.
    ghost eq = { λ x y. (cause_number x == cause_number y) };

    ghost laws = { Keys.partial_equiv_from_equiv (Prim.search (comparing, rules)) };

    fn eq(&self, other: &Cause) -> bool {
        self.number() == other.number()
    }
}

/// A cause prints as its number.
impl fmt::Display for Cause {
    ghost output = { λ cause. Some (decimal (cause_number cause)) };

    fn fmt<W: fmt::Write>(&self, f: &mut fmt::Formatter<W>) -> fmt::Result {
        write!(f, "{}", self.number())
    }
}

impl Error for Cause {}
