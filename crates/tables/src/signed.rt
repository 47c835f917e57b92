//! Two relations between names, one as it stands and one between reversed pairs, as tables.
ghost use Rattle.std.specs.Prelude.{◌≡◌, ℕ, Bool, false};
ghost use Rattle.tables.specs.Least.{LeastSignedJoining};
ghost use Rattle.tables.specs.Relations.{nothing, turned};
ghost use Rattle.tables.specs.Signed.{AgreeBoth, BothSameFrom, joined, signed_closed, signed_product};
ghost use Rattle.tables.specs.Tables.{cells};

use crate::chains::{Steps, close};
use crate::span::{Name, Span};
use crate::table::Table;

#[derive(Drop)]
pub struct SignedTable {
    pub along: Table,
    pub against: Table,
}

impl Steps for SignedTable {
    ghost steps = { cells };

    fn join_row(&mut self, left: Name, middle: Name) {
        if self.along.at(left, middle) | self.against.at(left, middle) {
            self.merge_row(left, middle);
        }
    }
}

impl SignedTable {
    #[tactic(auto, using(crate::proofs::Rows::no_pair))]
    pub fn none() -> SignedTable
        ensures holds_no_pair { (s : Bool) (i j : ℕ) → cells result s i j ≡ false }
    {
        let along = Table::none();
        let against = Table::none();
        SignedTable { along, against }
    }

    /// Adds every pair that a chain of pairs leads to, over the names of the span. Two reversals cancel.
    pub fn close(&mut self, n: Span)
        ensures holds_each_chain { AgreeBoth n.names 64 (cells self.new) (signed_closed n.names (cells self.old)) }
        ensures other_rows_stay { BothSameFrom n.names (cells self.new) (cells self.old) }
        ensures is_the_least_that_joins { LeastSignedJoining n.names (cells self.old) (cells self.new) }
    {
        close(self, n);
    }

    fn merge_row(&mut self, left: Name, middle: Name)
        ensures { AgreeBoth 64 64 (cells self.new) (joined left.number middle.number (cells self.old)) }
    {
        let along = self.along.at(left, middle);
        let against = self.against.at(left, middle);
        // Both are read before either is written, since the rows may be one.
        let ahead = self.along.row(middle);
        let turned = self.against.row(middle);
        // By `when`: an `if` for each sign would want a function that adds to both rows in its place, and be no plainer.
        self.along
            .add(left, ahead.when(along).union(turned.when(against)));
        self.against
            .add(left, turned.when(along).union(ahead.when(against)));
    }

    /// The pairs that a pair of `self` and a pair of `right` lead to, by way of a name of the span. Two reversals cancel.
    pub fn times(&self, right: &SignedTable, n: Span) -> SignedTable
        ensures is_the_product { AgreeBoth n.names 64 (cells result) (signed_product n.names (cells self.now) (cells right.now)) }
        ensures other_rows_are_empty { BothSameFrom n.names (cells result) (λ s. nothing) }
    {
        let mut along = self.along.times(&right.along, n, n);
        along.add_product(&self.against, &right.against, n, n);
        let mut against = self.along.times(&right.against, n, n);
        against.add_product(&self.against, &right.along, n, n);
        SignedTable { along, against }
    }

    /// Each pair of both tables the other way round.
    pub fn turned(&self) -> SignedTable
        ensures each_the_other_way { AgreeBoth 64 64 (cells result) (λ s. turned (cells self.now s)) }
    {
        SignedTable {
            along: self.along.turned(),
            against: self.against.turned(),
        }
    }
}
