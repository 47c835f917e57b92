//! How each stage is had. The four that follow a stage close other relations by other rules: one function for them would
//! take the step as a closure, whose contract would say again what the step's says, and be no plainer. That a stage is over the
//! theory of the one before relates two values, so it stands in each clause.
ghost use Rattle.std.specs.Prelude.{◌≡◌};
ghost use Rattle.closing.specs.Stages.{theory_of};

use crate::relations::Relations;
use crate::stages::{Stage, Stage1, Stage2, Stage3, Stage4, Stage5};
use crate::theory::Theory;

impl<'a> Stage1<'a> {
    pub fn over(theory: &'a Theory) -> Stage1<'a>
        ensures over_that_theory { theory_of result ≡ theory.now }
    {
        let relations = Relations::with_csub(theory.close_csub());
        Stage { theory, relations }
    }
}

impl<'a> Stage2<'a> {
    pub fn after(before: Stage1<'a>) -> Stage2<'a>
        ensures over_the_same_theory { theory_of result ≡ theory_of before.entry }
    {
        let Stage {
            theory,
            mut relations,
        } = before;
        relations.psub = theory.close_psub();
        Stage { theory, relations }
    }
}

impl<'a> Stage3<'a> {
    pub fn after(before: Stage2<'a>) -> Stage3<'a>
        ensures over_the_same_theory { theory_of result ≡ theory_of before.entry }
    {
        let Stage {
            theory,
            mut relations,
        } = before;
        relations.ends = relations.close_ends(theory);
        Stage { theory, relations }
    }
}

impl<'a> Stage4<'a> {
    pub fn after(before: Stage3<'a>) -> Stage4<'a>
        ensures over_the_same_theory { theory_of result ≡ theory_of before.entry }
    {
        let Stage {
            theory,
            mut relations,
        } = before;
        relations.cdis = relations.close_cdis(theory);
        Stage { theory, relations }
    }
}

impl<'a> Stage5<'a> {
    pub fn after(before: Stage4<'a>) -> Stage5<'a>
        ensures over_the_same_theory { theory_of result ≡ theory_of before.entry }
    {
        let Stage {
            theory,
            mut relations,
        } = before;
        relations.pdis = relations.close_pdis(theory);
        Stage { theory, relations }
    }
}

impl Theory {
    /// The fifth stage, by way of the four before it.
    pub fn closed(&self) -> Stage5<'_>
        ensures over_this_theory { theory_of result ≡ self.now }
    {
        let first = Stage1::over(self);
        let second = Stage2::after(first);
        let third = Stage3::after(second);
        let fourth = Stage4::after(third);
        Stage5::after(fourth)
    }
}
