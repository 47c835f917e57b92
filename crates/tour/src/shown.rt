//! Axioms and answers as text for people.
use crate::sample::name;
use axioms::{Axiom, Sort};
use closing::Name;
use sheets::Fault;
use std::fmt;

#[derive(Clone, Copy)]
pub struct Sentence(pub Axiom);

impl fmt::Display for Sentence {
    fn fmt<W: fmt::Write>(&self, f: &mut fmt::Formatter<W>) -> fmt::Result {
        let Axiom { kind, trust, .. } = self.0;
        let left = name(kind.left_sort(), self.0.left);
        let right = name(kind.right_sort(), self.0.right);
        write!(f, "{kind} {left} {right}, trust {trust}")
    }
}

/// A name by its word, where its own `Display` has the number: no twin, since it needs the sample's words.
#[derive(Clone, Copy)]
pub struct Shown(pub Name);

impl fmt::Display for Shown {
    fn fmt<W: fmt::Write>(&self, f: &mut fmt::Formatter<W>) -> fmt::Result {
        match self.0 {
            Name::Class(class) => write!(f, "class {}", name(Sort::Class, class)),
            Name::Property(property) => write!(f, "property {}", name(Sort::Property, property)),
        }
    }
}

/// What a sheet answers at a place.
#[derive(Clone, Copy)]
pub struct Answer(pub Result<Option<Axiom>, Fault>);

impl fmt::Display for Answer {
    fn fmt<W: fmt::Write>(&self, f: &mut fmt::Formatter<W>) -> fmt::Result {
        match self.0 {
            Ok(Some(held)) => write!(f, "{}", Sentence(held)),
            Ok(None) => write!(f, "vacant"),
            Err(
                Fault {
                    cause,
                    place,
                    depth,
                },
            ) => write!(f, "fault {cause}, place {place}, depth {depth}"),
        }
    }
}
