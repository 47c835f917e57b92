//! Which names are empty.
ghost use Rattle.std.specs.Prelude.{Decides};
ghost use Rattle.closing.specs.Numbers.{CountsEmpty};
ghost use Rattle.closing.specs.Stages.{theory_of};
ghost use Rattle.closing.specs.Theories.{FoundIn, TellsEmpty};

use crate::names::Name;
use crate::stages::Stage5;
use axioms::{Kind, Sort};

impl<'a> Stage5<'a> {
    /// Whether no interpretation that fits the axioms gives the name a member, or a pair.
    pub fn is_empty(&self, name: Name) -> bool
        ensures empty_or_inhabited { TellsEmpty (theory_of self.now) name result }
        ensures found_by_the_diagonal { Decides result (FoundIn (theory_of self.now) name) }
    {
        match name {
            Name::Class(a) => self.read(Kind::Cdis, a, a),
            Name::Property(p) => self.read(Kind::Pdis, p, p),
        }
    }

    /// How many names are empty, 0 to 128.
    pub fn empty_names(&self) -> u8
        ensures counts_the_empty_names { CountsEmpty (theory_of self.now) result }
    {
        let classes = self.theory.span(Sort::Class);
        let properties = self.theory.span(Sort::Property);
        self.relations.cdis.count_diagonal(classes)
            + self.relations.pdis.along.count_diagonal(properties)
    }
}
