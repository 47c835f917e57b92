//! What each stage does: the relations that it closes, from those of the stages before. Each closes other relations by other
//! rules, so they are no instances of one function.
ghost use Rattle.axioms.specs.declared.kinds.Kind.TheVariants.{Csub, Psub, Cdis, Pdis, Dom, Ran, Psubinv, Pdisinv};
ghost use Rattle.closing.specs.Exactness.{Exact, ExactBoth, ExactTo};

use crate::relations::Relations;
use crate::theory::Theory;
use axioms::{Kind, Sort};
use tables::{SignedTable, Table};

impl Theory {
    /// Csub, by rules 1 and 3.
    pub(crate) fn close_csub(&self) -> Table
        ensures { Exact self.now Csub result }
    {
        let classes = self.span(Sort::Class);
        let mut csub = self.stated(Kind::Csub);
        csub.reflect(classes);
        csub.close(classes);
        csub
    }

    /// Psub and psubinv, by rules 5, 7, 17, 18 and 19.
    pub(crate) fn close_psub(&self) -> SignedTable
        ensures { ExactBoth self.now Psub Psubinv result }
    {
        let properties = self.span(Sort::Property);
        let mut along = self.stated(Kind::Psub);
        along.reflect(properties);
        let against = self.stated(Kind::Psubinv);
        let mut psub = SignedTable { along, against };
        psub.close(properties);
        psub
    }
}

impl Relations {
    /// Dom and ran, by rules 9 to 12, 15 and 16.
    pub(crate) fn close_ends(&self, theory: &Theory) -> SignedTable
        requires { ExactTo 2 theory.now self.now }
        ensures { ExactBoth theory.now Dom Ran result }
    {
        let classes = theory.span(Sort::Class);
        let properties = theory.span(Sort::Property);
        let csub = &self.csub;
        let stated = SignedTable {
            along: theory.stated(Kind::Dom),
            against: theory.stated(Kind::Ran),
        };
        let near = self.psub.times(&stated, properties);
        SignedTable {
            along: near.along.times(csub, properties, classes),
            against: near.against.times(csub, properties, classes),
        }
    }

    /// Cdis, by rules 2 and 4.
    pub(crate) fn close_cdis(&self, theory: &Theory) -> Table
        requires { ExactTo 3 theory.now self.now }
        ensures { Exact theory.now Cdis result }
    {
        let classes = theory.span(Sort::Class);
        let csub = &self.csub;
        let stated = theory.stated(Kind::Cdis).either_way();
        let half = csub.times(&stated, classes, classes);
        csub.times(&half.turned(), classes, classes)
    }

    /// Pdis and pdisinv, by rules 6, 8, 13, 14 and 20 to 23.
    pub(crate) fn close_pdis(&self, theory: &Theory) -> SignedTable
        requires { ExactTo 4 theory.now self.now }
        ensures { ExactBoth theory.now Pdis Pdisinv result }
    {
        let classes = theory.span(Sort::Class);
        let properties = theory.span(Sort::Property);
        let Relations {
            psub,
            ends,
            cdis,
            ..
        } = self;
        let mut along = theory.stated(Kind::Pdis).either_way();
        along.mark_clashes(&ends.along, cdis, properties, classes);
        along.mark_clashes(&ends.against, cdis, properties, classes);
        let against = theory.stated(Kind::Pdisinv).either_way();
        let half = psub.times(&SignedTable { along, against }, properties);
        psub.times(&half.turned(), properties)
    }
}
