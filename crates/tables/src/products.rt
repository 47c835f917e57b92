//! Products of relations, as tables. The two spans of a product or a clash differ in role, so they are two parameters. That
//! other rows stay relates a table before and after, here and in the closings, so no type can carry it.
ghost use Rattle.std.specs.Prelude.{◌≡◌, ℕ, ◌<◌, ◌&&◌, ◌||◌, ◌==◌};
ghost use Rattle.tables.specs.Relations.{Agree, SameFrom, nothing, some, product, turned, clash};
ghost use Rattle.tables.specs.Sets.{has};
ghost use Rattle.tables.specs.Tables.{cell};

use crate::name_set::NameSet;
use crate::span::{Name, Span};
use crate::table::Table;

impl Table {
    /// The union of the rows of the names in `names`, within the span.
    pub(crate) fn gathered(&self, names: NameSet, n: Span) -> NameSet
        ensures { (j : ℕ) → has result j ≡ some n.names (λ k. has names k && cell self.now k j) }
    {
        let mut all = NameSet::none();
        for name in names.within(n) {
            all = self.row(name).union(all);
        }
        all
    }

    /// Adds the pairs that a pair of `left` and a pair of `right` lead to, by way of a name of the span `middles`.
    pub(crate) fn add_product(&mut self, left: &Table, right: &Table, lefts: Span, middles: Span)
        ensures added { Agree lefts.names 64 (cell self.new) (λ i j. cell self.old i j || product middles.names (cell left.now) (cell right.now) i j) }
        ensures others { SameFrom lefts.names (cell self.new) (cell self.old) }
    {
        for name in lefts.each() {
            self.add(name, right.gathered(left.row(name), middles));
        }
    }

    /// The pairs that a pair of `self` and a pair of `right` lead to, by way of a name of the span `middles`.
    pub fn times(&self, right: &Table, lefts: Span, middles: Span) -> Table
        ensures is_the_product { Agree lefts.names 64 (cell result) (product middles.names (cell self.now) (cell right.now)) }
        ensures other_rows_are_empty { SameFrom lefts.names (cell result) nothing }
    {
        let mut product = Table::none();
        product.add_product(self, right, lefts, middles);
        product
    }

    /// Each pair the other way round.
    pub fn turned(&self) -> Table
        ensures each_the_other_way { Agree 64 64 (cell result) (turned (cell self.now)) }
    {
        let mut turned = Table::none();
        for name in Span::ALL.each() {
            turned.add_column(name, self.row(name));
        }
        turned
    }

    /// Each pair as it stands and the other way round.
    pub fn either_way(&self) -> Table
        ensures holds_each_both_ways { Agree 64 64 (cell result) (λ i j. cell self.now i j || cell self.now j i) }
    {
        let mut both = self.turned();
        for name in Span::ALL.each() {
            both.add(name, self.row(name));
        }
        both
    }

    /// Adds `name` to the rows of the names in `lefts`.
    fn add_column(&mut self, name: Name, lefts: NameSet)
        ensures { Agree 64 64 (cell self.new) (λ i j. cell self.old i j || (has lefts i && j == name.number)) }
    {
        for left in lefts.within(Span::ALL) {
            self.add_pair(left, name);
        }
    }

    /// Adds beside itself each name of the span `lefts` that `ends` relates to two names of the span `rights` which
    /// `apart` relates.
    pub fn mark_clashes(&mut self, ends: &Table, apart: &Table, lefts: Span, rights: Span)
        ensures each_that_clashes { Agree lefts.names 64 (cell self.new) (λ i j. cell self.old i j || (i == j && clash rights.names (cell apart.now) (cell ends.now) i)) }
        ensures other_rows_stay { SameFrom lefts.names (cell self.new) (cell self.old) }
    {
        for name in lefts.each() {
            let row = ends.row(name);
            if apart.gathered(row, rights).meets(row, rights) {
                self.add_pair(name, name);
            }
        }
    }
}
