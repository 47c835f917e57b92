//! Names, and how many of them a relation is over.
ghost use Rattle.std.specs.Prelude.{◌≡◌, ◌-◌, ◌<◌, ◌≤◌, MatchOption};
ghost use Rattle.std.specs.Iterator.{at_most};

use std::ops::Range;

/// A name, by its number.
#[derive(Clone, Copy)]
pub(crate) struct Name {
    pub(crate) number: u8,
    ghost small: { number < 64 },
}

/// The names below a count of at most 64. A call takes each of its spans by itself, since they differ in role: left names,
/// right names, and names by way of which.
#[derive(Clone, Copy)]
pub struct Span {
    pub names: u8,
    ghost few: { names ≤ 64 },
}

impl Span {
    /// The names that a table has a row for.
    pub(crate) const ALL: Span = Span { names: 64 };

    /// The name of that number, if the span has it.
    pub(crate) fn name(self, number: u8) -> Option<Name>
        ensures the_name_if_below { MatchOption result (self.names ≤ number) (λ name. (name.number ≡ number) × (number < self.names)) }
    {
        // Not by `then`, whose closure would have to be told again that the number is below.
        if number < self.names {
            Some(Name { number })
        } else {
            None
        }
    }

    /// Its names, rising.
    pub(crate) fn each(self) -> Names
        ensures from_zero { result.numbers.start ≡ 0 }
        ensures to_its_count { result.numbers.end ≡ self.names }
    {
        Names {
            numbers: 0..self.names,
        }
    }
}

/// The names with the numbers of a range, rising.
#[derive(Drop)]
pub(crate) struct Names {
    numbers: Range<u8>,
    ghost rising: { numbers.start ≤ numbers.end },
    ghost small: { numbers.end ≤ 64 },
}

impl Iterator for Names {
    ghost use Rattle.tables.specs.Names.{Rises};

    type Item = Name;

    ghost next_gives = { Rises };

    ghost remaining = { λ s. at_most (s.numbers.end - s.numbers.start) };

    fn next(&mut self) -> Option<Name> {
        let number = self.numbers.next()?;
        Some(Name { number })
    }
}
