//! The five stages. Each is had only from the one before it, over the same theory, and is gone when the next one is had.
ghost use Rattle.closing.specs.Exactness.{ExactTo};

use crate::relations::Relations;
use crate::theory::Theory;

mod closing;
mod emptiness;
mod reading;

/// A theory with the relations that its first stages closed, up to the stage N.
#[derive(Drop)]
pub struct Stage<'a, const N: u8> {
    theory: &'a Theory,
    relations: Relations,
    ghost exact: { ExactTo N theory.now relations },
}

/// Csub is closed.
pub type Stage1<'a> = Stage<'a, 1>;

/// Psub and psubinv are closed too.
pub type Stage2<'a> = Stage<'a, 2>;

/// Dom and ran are closed too.
pub type Stage3<'a> = Stage<'a, 3>;

/// Cdis is closed too.
pub type Stage4<'a> = Stage<'a, 4>;

/// Pdis and pdisinv are closed too, so that every relation and every empty name is known.
pub type Stage5<'a> = Stage<'a, 5>;
