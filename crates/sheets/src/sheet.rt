//! What a sheet is: anything that answers four questions as its content says.
ghost use Rattle.std.specs.Prelude.{◌≡◌, length};
ghost use Rattle.sheets.specs.Contents.{Content, Sound, answer};

use crate::faults::Fault;
use axioms::Axiom;

pub trait Sheet {
    /// The two counts and the list of places.
    ghost content: { Self → Content };

    /// How many classes there are.
    fn classes(&self) -> u8
        ensures is_the_class_count { result ≡ (content self.now).classes };

    /// How many properties there are.
    fn properties(&self) -> u8
        ensures is_the_property_count { result ≡ (content self.now).properties };

    /// How many places there are.
    fn places(&self) -> usize
        ensures is_the_number_of_places { result ≡ length (content self.now).places };

    /// The axiom at a place, or nothing where it is vacant, or its fault.
    fn at(&self, place: usize) -> Result<Option<Axiom>, Fault>
        ensures answers_the_list { result ≡ answer (content self.now) place };

    ghost sound: { (s : Self) → Sound (content s) };
}
