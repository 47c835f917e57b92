//! Closing relations under chains of steps, in a table of one sign or of two.
ghost use Rattle.std.specs.Prelude.{◌<◌};
ghost use Rattle.tables.specs.Least.{LeastJoining};
ghost use Rattle.tables.specs.Relations.{Agree, SameFrom, closed};
ghost use Rattle.tables.specs.Signed.{Signed, AgreeBoth, BothSameFrom, alone, joined, crossed, signed_closed};
ghost use Rattle.tables.specs.Tables.{cell};

use crate::span::{Name, Span};
use crate::table::Table;

/// A table whose steps have signs. A table of one sign has no step that reverses.
pub(crate) trait Steps {
    ghost steps: { Self → Signed };

    /// Adds to the row of `left` what the row of `middle` leads to from there, if anything leads to `middle`.
    fn join_row(&mut self, left: Name, middle: Name)
        ensures { AgreeBoth 64 64 (steps self.new) (joined left.number middle.number (steps self.old)) };
}

/// Adds every pair that a chain of pairs leads to, over the names of the span. Two reversals cancel.
pub(crate) fn close<T: Steps>(table: &mut T, n: Span)
    ensures chains { AgreeBoth n.names 64 (T.steps table.new) (signed_closed n.names (T.steps table.old)) }
    ensures others { BothSameFrom n.names (T.steps table.new) (T.steps table.old) }
{
    for middle in n.each() {
        join_through(table, middle, n);
    }
}

/// Adds every pair that pairs by way of `middle` lead to. The row of `middle` comes first, since it may be reversed
/// into itself.
fn join_through<T: Steps>(table: &mut T, middle: Name, n: Span)
    requires { middle.number < n.names }
    ensures joined { AgreeBoth n.names 64 (T.steps table.new) (crossed middle.number (joined middle.number middle.number (T.steps table.old))) }
    ensures others { BothSameFrom n.names (T.steps table.new) (T.steps table.old) }
{
    table.join_row(middle, middle);
    for left in n.each() {
        table.join_row(left, middle);
    }
}

impl Steps for Table {
    ghost steps = { λ t. alone (cell t) };

    /// Adds to the row of `left` the row of `middle`, if `left` stands before `middle`.
    fn join_row(&mut self, left: Name, middle: Name) {
        if self.at(left, middle) {
            self.add(left, self.row(middle));
        }
    }
}

impl Table {
    /// Adds every pair that a chain of pairs leads to, over the names of the span.
    pub fn close(&mut self, n: Span)
        ensures holds_each_chain { Agree n.names 64 (cell self.new) (closed n.names (cell self.old)) }
        ensures other_rows_stay { SameFrom n.names (cell self.new) (cell self.old) }
        ensures is_the_least_that_joins { LeastJoining n.names (cell self.old) (cell self.new) }
    {
        close(self, n);
    }
}
