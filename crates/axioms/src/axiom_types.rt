//! An axiom, and its numbers as they come in.
ghost use Rattle.std.specs.Prelude.{◌≡◌};
ghost use Rattle.axioms.specs.Kinds.{row};
ghost use Rattle.axioms.specs.Raw.{raw_of};

use crate::kinds::Kind;

#[derive(Clone, Copy, PartialEq, Eq, Debug)]
pub struct Axiom {
    pub kind: Kind,
    pub left: u8,
    pub right: u8,
    pub trust: u16,
}

/// The numbers of an axiom as they come in, unchecked. The kind is a number too, since a statement is refused with cause 6
/// for a number of no kind, which has to be able to come in.
#[derive(Clone, Copy, PartialEq, Eq, Debug)]
pub struct RawAxiom {
    pub kind: u16,
    pub left: u16,
    pub right: u16,
    pub trust: u16,
}

impl RawAxiom {
    /// Numbers for an axiom of that kind.
    pub fn new(kind: Kind, left: u16, right: u16, trust: u16) -> RawAxiom
        ensures has_the_code_and_the_numbers { result ≡ record { kind = (row kind).code; left = left; right = right; trust = trust } }
    {
        RawAxiom {
            kind: u16::from(kind.code()),
            left,
            right,
            trust,
        }
    }
}

/// The numbers that state an axiom.
impl From<Axiom> for RawAxiom {
    ghost from_gives = { λ stated raw. raw ≡ raw_of stated };

    fn from(stated: Axiom) -> RawAxiom {
        RawAxiom::new(
            stated.kind,
            u16::from(stated.left),
            u16::from(stated.right),
            stated.trust,
        )
    }
}
