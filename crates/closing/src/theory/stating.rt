//! What the axioms of a theory state, kind by kind.
ghost use Rattle.std.specs.Prelude.{◌≡◌};
ghost use Rattle.tables.specs.Relations.{Agree};
ghost use Rattle.tables.specs.Tables.{cell};
ghost use Rattle.closing.specs.Tests.{is_stated};
ghost use Rattle.closing.specs.Theories.{names, axioms_of};

use crate::theory::Theory;
use axioms::{Kind, Sort};
use tables::{Span, Table};

impl Theory {
    /// The names of a sort.
    pub(crate) fn span(&self, sort: Sort) -> Span
        ensures { result.names ≡ names self.now sort }
    {
        match sort {
            Sort::Class => Span {
                names: self.counts.classes,
            },
            Sort::Property => Span {
                names: self.counts.properties,
            },
        }
    }

    /// The pairs that the axioms of one kind state.
    pub(crate) fn stated(&self, kind: Kind) -> Table
        ensures { Agree 64 64 (cell result) (is_stated (axioms_of self.now) kind) }
    {
        let mut table = Table::none();
        for found in &self.places {
            if let Some(stated) = found
                && stated.kind == kind
            {
                table.mark(stated.left, stated.right);
            }
        }
        table
    }
}
