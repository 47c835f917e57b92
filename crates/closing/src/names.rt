//! A name that may be empty.
ghost use Rattle.std.specs.Prelude.{Some};
ghost use Rattle.closing.specs.Names.{shown};

use std::fmt;

/// A class or a property, by its number.
#[derive(Clone, Copy, PartialEq, Eq, Debug)]
pub enum Name {
    Class(u8),
    Property(u8),
}

/// A name prints as its sort and its number.
impl fmt::Display for Name {
    ghost output = { λ name. Some (shown name) };

    fn fmt<W: fmt::Write>(&self, f: &mut fmt::Formatter<W>) -> fmt::Result {
        match self {
            Name::Class(class) => write!(f, "class {class}"),
            Name::Property(property) => write!(f, "property {property}"),
        }
    }
}
