//! A relation between names, as a table.
ghost use Rattle.std.specs.Prelude.{◌≡◌, ℕ, ◌≤◌, false, ◌&&◌, ◌||◌, ◌==◌, nat_lt};
ghost use Rattle.tables.specs.Relations.{Agree, marked, reflexive, count};
ghost use Rattle.tables.specs.Sets.{has};
ghost use Rattle.tables.specs.Tables.{cell};

use crate::name_set::NameSet;
use crate::span::{Name, Span};

/// A set of right names for each left name below 64, in fixed memory.
#[derive(Drop)]
pub struct Table {
    rows: [NameSet; 64],
}

impl Table {
    pub fn none() -> Table
        ensures holds_no_pair { (i j : ℕ) → cell result i j ≡ false }
    {
        let none = NameSet::none();
        Table { rows: [none; 64] }
    }

    #[tactic(auto, unfolding(crate::specs::Tables::cell))]
    pub(crate) fn row(&self, name: Name) -> NameSet
        ensures { (j : ℕ) → has result j ≡ cell self.now name.number j }
    {
        self.rows[usize::from(name.number)]
    }

    pub(crate) fn at(&self, left: Name, right: Name) -> bool
        ensures { result ≡ cell self.now left.number right.number }
    {
        self.row(left).contains(right)
    }

    /// What stands between two names of the spans, and false elsewhere. Two spans, since left and right differ in role.
    pub fn read(&self, left: u8, right: u8, lefts: Span, rights: Span) -> bool
        ensures holds_within_the_spans { result ≡ (nat_lt left lefts.names && (nat_lt right rights.names && cell self.now left right)) }
    {
        match (lefts.name(left), rights.name(right)) {
            (Some(left), Some(right)) => self.at(left, right),
            _ => false,
        }
    }

    /// Adds to the row `into` the names of a set.
    #[tactic(auto, unfolding(crate::specs::Tables::cell))]
    pub(crate) fn add(&mut self, into: Name, added: NameSet)
        ensures { Agree 64 64 (cell self.new) (λ i j. cell self.old i j || (i == into.number && has added j)) }
    {
        let row = &mut self.rows[usize::from(into.number)];
        *row = row.union(added);
    }

    /// Adds one pair.
    pub(crate) fn add_pair(&mut self, left: Name, right: Name)
        ensures { Agree 64 64 (cell self.new) (marked left.number right.number (cell self.old)) }
    {
        self.add(left, NameSet::only(right));
    }

    /// Adds one pair, if both names are below 64.
    pub fn mark(&mut self, left: u8, right: u8)
        ensures one_pair_more { Agree 64 64 (cell self.new) (marked left right (cell self.old)) }
    {
        if let (Some(left), Some(right)) = (Span::ALL.name(left), Span::ALL.name(right)) {
            self.add_pair(left, right);
        }
    }

    /// Adds each name of the span beside itself.
    #[tactic(auto, using(crate::proofs::Rows::beside_more))]
    pub fn reflect(&mut self, n: Span)
        ensures each_beside_itself { Agree 64 64 (cell self.new) (reflexive n.names (cell self.old)) }
    {
        for name in n.each() {
            self.add_pair(name, name);
        }
    }

    /// How many names of the span stand beside themselves.
    #[tactic(auto, using(crate::proofs::Sums::count_none, crate::proofs::Sums::count_taken, crate::proofs::Sums::count_left))]
    pub fn count_diagonal(&self, n: Span) -> u8
        ensures counts_them { result ≡ count n.names (λ k. cell self.now k k) }
        ensures at_most_the_span { result ≤ n.names }
    {
        // By a loop, since `filter` and `count` take longer, over an empty span more than twice as long.
        let mut held = 0;
        for name in n.each() {
            if self.at(name, name) {
                held += 1;
            }
        }
        held
    }
}
