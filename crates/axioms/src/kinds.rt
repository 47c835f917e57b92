//! The eight kinds of axioms.
ghost use Rattle.std.specs.Prelude.{◌≡◌, Some};
ghost use Rattle.axioms.specs.Kinds.{row, kinds};

use std::fmt;

/// What a name is a name of.
#[derive(Clone, Copy, PartialEq, Eq, Debug)]
pub enum Sort {
    Class,
    Property,
}

/// Individuals are members of classes, and ordered pairs of individuals are pairs of properties.
#[derive(Clone, Copy, PartialEq, Eq, Debug)]
pub enum Kind {
    /// Every member of left is a member of right.
    Csub = 1,
    /// Every pair of left is a pair of right.
    Psub = 2,
    /// No member of left is a member of right.
    Cdis = 3,
    /// No pair of left is a pair of right.
    Pdis = 4,
    /// The first of each pair of left is a member of right.
    Dom = 5,
    /// The second of each pair of left is a member of right.
    Ran = 6,
    /// Every pair of left, reversed, is a pair of right.
    Psubinv = 7,
    /// No pair of left, reversed, is a pair of right.
    Pdisinv = 8,
}

impl Kind {
    /// Every kind, in the order of the codes.
    pub fn all() -> [Kind; 8]
        ensures are_the_kinds { result ≡ kinds }
    {
        [
            Kind::Csub,
            Kind::Psub,
            Kind::Cdis,
            Kind::Pdis,
            Kind::Dom,
            Kind::Ran,
            Kind::Psubinv,
            Kind::Pdisinv,
        ]
    }

    /// The number by which raw input names the kind. Like `Cause::number` it is one line: a trait for the two would be no
    /// plainer.
    pub fn code(self) -> u8
        ensures is_the_code { result ≡ (row self).code }
    {
        self as u8
    }

    /// The word that stands for the kind in text.
    pub fn word(self) -> &'static str
        ensures is_the_word { result.now ≡ (row self).word }
    {
        match self {
            Kind::Csub => "csub",
            Kind::Psub => "psub",
            Kind::Cdis => "cdis",
            Kind::Pdis => "pdis",
            Kind::Dom => "dom",
            Kind::Ran => "ran",
            Kind::Psubinv => "psubinv",
            Kind::Pdisinv => "pdisinv",
        }
    }

    /// What its left name is a name of.
    pub fn left_sort(self) -> Sort
        ensures is_the_sort { result ≡ (row self).left }
    {
        match self {
            Kind::Csub | Kind::Cdis => Sort::Class,
            Kind::Psub | Kind::Pdis | Kind::Dom | Kind::Ran | Kind::Psubinv | Kind::Pdisinv =>
                Sort::Property,
        }
    }

    /// Whether its two names must differ.
    pub fn names_differ(self) -> bool
        ensures says_the_table { result ≡ (row self).differ }
    {
        match self {
            Kind::Cdis | Kind::Pdis => true,
            Kind::Csub | Kind::Psub | Kind::Dom | Kind::Ran | Kind::Psubinv | Kind::Pdisinv =>
                false,
        }
    }

    /// What its right name is a name of.
    pub fn right_sort(self) -> Sort
        ensures is_the_sort { result ≡ (row self).right }
    {
        match self {
            Kind::Csub | Kind::Cdis | Kind::Dom | Kind::Ran => Sort::Class,
            Kind::Psub | Kind::Pdis | Kind::Psubinv | Kind::Pdisinv => Sort::Property,
        }
    }
}

/// A kind prints as its word.
impl fmt::Display for Kind {
    ghost output = { λ kind. Some (row kind).word };

    fn fmt<W: fmt::Write>(&self, f: &mut fmt::Formatter<W>) -> fmt::Result {
        f.write_str(self.word())
    }
}
