//! A set of names below 64.
ghost use Rattle.std.specs.Prelude.{◌≡◌, ℕ, ◌<◌, ◌≤◌, false, ◌&&◌, ◌||◌, ◌==◌, nat_lt, MatchOption};
ghost use Rattle.std.specs.Iterator.{at_most};
ghost use Rattle.tables.specs.Relations.{some};
ghost use Rattle.tables.specs.Sets.{has, first};

use crate::span::{Name, Span};

/// A row of a table: one bit for each name.
#[derive(Clone, Copy)]
pub(crate) struct NameSet {
    bits: u64,
}

impl NameSet {
    #[tactic(auto, using(crate::proofs::Digits::bit_none))]
    pub(crate) fn none() -> NameSet
        ensures { (j : ℕ) → has result j ≡ false }
    {
        NameSet { bits: 0 }
    }

    /// One name alone.
    #[tactic(auto, using(crate::proofs::Digits::bit_only))]
    pub(crate) fn only(name: Name) -> NameSet
        ensures { (j : ℕ) → has result j ≡ (j == name.number) }
    {
        NameSet {
            bits: 1 << name.number,
        }
    }

    #[tactic(auto, using(crate::proofs::Digits::bit_read))]
    pub(crate) fn contains(self, name: Name) -> bool
        ensures { result ≡ has self name.number }
    {
        (self.bits >> name.number) & 1 == 1
    }

    #[tactic(auto, using(crate::proofs::Digits::bit_of_or))]
    pub(crate) fn union(self, other: NameSet) -> NameSet
        ensures { (j : ℕ) → has result j ≡ (has self j || has other j) }
    {
        NameSet {
            bits: self.bits | other.bits,
        }
    }

    /// The set itself if `held`, else none. `SignedTable::merge_row` says why it stays.
    pub(crate) fn when(self, held: bool) -> NameSet
        ensures { (j : ℕ) → has result j ≡ (held && has self j) }
    {
        if held { self } else { NameSet::none() }
    }

    /// Whether a name of the span is in both.
    #[tactic(auto, using(crate::proofs::Digits::share_below))]
    pub(crate) fn meets(self, other: NameSet, n: Span) -> bool
        ensures { result ≡ some n.names (λ j. has self j && has other j) }
    {
        (self.bits & other.bits).trailing_zeros() < u32::from(n.names)
    }

    /// Its names that the span has, rising.
    pub(crate) fn within(self, n: Span) -> NamesOfSet
        ensures of_the_set { result.left ≡ self }
        ensures of_the_span { result.n.names ≡ n.names }
    {
        NamesOfSet { left: self, n }
    }
}

/// The names of a set that a span has, rising.
#[derive(Drop)]
pub(crate) struct NamesOfSet {
    left: NameSet,
    n: Span,
}

impl Iterator for NamesOfSet {
    type Item = Name;

    ghost next_gives = { λ s r t. (t.n.names ≡ s.n.names)
        × MatchOption r (s.n.names ≤ first s.left) (λ name. (name.number ≡ first s.left)
        × (first s.left < s.n.names) × ((j : ℕ) → has t.left j ≡ (nat_lt (first s.left) j && has s.left j))) };

    ghost remaining = { λ s. at_most s.left.bits };

    fn next(&mut self) -> Option<Name> {
        let number = self.left.bits.trailing_zeros() as u8;
        if number >= self.n.names {
            return None;
        }
        self.left.bits &= self.left.bits - 1;
        Some(Name { number })
    }
}
