//! Reading the relations, each from its own stage on.
ghost use Rattle.std.specs.Prelude.{◌≡◌};
ghost use Rattle.closing.specs.Exactness.{reading};
ghost use Rattle.closing.specs.Reading.{ReadAt, stage_of};
ghost use Rattle.closing.specs.Stages.{theory_of};
ghost use Rattle.closing.specs.Theories.{Tells};

use crate::stages::{Stage, Stage5};
use axioms::Kind;

/// The stage that closes a relation. A const parameter is a number, and so is this, which is compared with one.
fn stage_of(kind: Kind) -> u8
    ensures { result ≡ stage_of kind }
{
    match kind {
        Kind::Csub => 1,
        Kind::Psub | Kind::Psubinv => 2,
        Kind::Dom | Kind::Ran => 3,
        Kind::Cdis => 4,
        Kind::Pdis | Kind::Pdisinv => 5,
    }
}

impl<'a, const N: u8> Stage<'a, N> {
    /// What is known at this stage: nothing before the relation's own stage, and from then on whether it can be derived.
    /// The kind and the names are parameters by themselves: a struct of them would make each call longer.
    pub fn known(&self, kind: Kind, left: u8, right: u8) -> Option<bool>
        ensures tells_from_its_stage_on { ReadAt N (theory_of self.now) kind left right result }
    {
        // Not by `then`, whose closure would need a clause of its own.
        if stage_of(kind) <= N {
            Some(self.held(kind, left, right))
        } else {
            None
        }
    }

    /// What the table of the kind holds between two names, and false at or past a count.
    fn held(&self, kind: Kind, left: u8, right: u8) -> bool
        ensures { result ≡ reading (theory_of self.now) self.now.relations kind left right }
    {
        let lefts = self.theory.span(kind.left_sort());
        let rights = self.theory.span(kind.right_sort());
        self.relations.table(kind).read(left, right, lefts, rights)
    }
}

impl<'a> Stage5<'a> {
    /// The last stage has every relation.
    pub fn read(&self, kind: Kind, left: u8, right: u8) -> bool
        ensures tells_what_is_derivable { Tells (theory_of self.now) kind left right result }
    {
        self.held(kind, left, right)
    }
}
