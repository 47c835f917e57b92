//! The tables of the eight relations.
ghost use Rattle.std.specs.Prelude.{◌≡◌};
ghost use Rattle.closing.specs.Exactness.{table_of};

use axioms::Kind;
use tables::{SignedTable, Table};

/// A relation whose stage has not come has an empty table.
#[derive(Drop)]
pub(crate) struct Relations {
    pub(crate) csub: Table,
    /// Psub along, psubinv against.
    pub(crate) psub: SignedTable,
    /// Dom along, ran against.
    pub(crate) ends: SignedTable,
    pub(crate) cdis: Table,
    /// Pdis along, pdisinv against.
    pub(crate) pdis: SignedTable,
}

impl Relations {
    /// The tables before the first stage, but for its own.
    pub(crate) fn with_csub(csub: Table) -> Relations
        ensures { result.csub ≡ csub }
    {
        Relations {
            csub,
            psub: SignedTable::none(),
            ends: SignedTable::none(),
            cdis: Table::none(),
            pdis: SignedTable::none(),
        }
    }

    pub(crate) fn table(&self, kind: Kind) -> &Table
        ensures { result.now ≡ table_of self.now kind }
    {
        match kind {
            Kind::Csub => &self.csub,
            Kind::Psub => &self.psub.along,
            Kind::Cdis => &self.cdis,
            Kind::Pdis => &self.pdis.along,
            Kind::Dom => &self.ends.along,
            Kind::Ran => &self.ends.against,
            Kind::Psubinv => &self.psub.against,
            Kind::Pdisinv => &self.pdis.against,
        }
    }
}
