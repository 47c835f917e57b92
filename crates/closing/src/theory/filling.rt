//! Making a theory, and filling it place by place.
ghost use Rattle.std.specs.Prelude.{◌≡◌, true, replicate, Some, None, MatchResult, OnErr, slice_index_or};
ghost use Rattle.axioms.specs.Axioms.{well_formed};
ghost use Rattle.axioms.specs.Ordered.{FirstFitting, NoneFits};
ghost use Rattle.closing.specs.Places.{most_places, found_grounds, put_grounds};
ghost use Rattle.closing.specs.Theories.{class_count, property_count, placed, Filled};

use crate::theory::{PLACES, Theory};
use axioms::{Axiom, Cause, Counts, RawAxiom, check};

/// Refuses an axiom that is not well formed.
fn check_found(found: Option<Axiom>, counts: Counts) -> Result<(), Cause>
    ensures { MatchResult result (λ _. NoneFits (found_grounds counts.classes counts.properties found) × ((a : Axiom) → found ≡ Some a → well_formed counts.classes counts.properties a ≡ true)) (λ e. FirstFitting (found_grounds counts.classes counts.properties found) e) }
{
    if let Some(stated) = found {
        check(RawAxiom::from(stated), counts)?;
    }
    Ok(())
}

impl Theory {
    /// A theory with every place vacant.
    pub fn new(counts: Counts) -> Theory
        ensures has_these_counts { (class_count result ≡ counts.classes) × (property_count result ≡ counts.properties) }
        ensures every_place_is_vacant { placed result ≡ replicate most_places None }
    {
        Theory {
            counts,
            places: [None; PLACES],
        }
    }

    pub fn counts(&self) -> Counts
        ensures are_its_counts { (result.classes ≡ class_count self.now) × (result.properties ≡ property_count self.now) }
    {
        self.counts
    }

    /// What is at each place, in order.
    pub fn places(&self) -> &[Option<Axiom>]
        ensures are_what_is_placed { result.now ≡ placed self.now }
    {
        &self.places
    }

    /// The axiom at a place, or nothing where it is vacant or there is no such place.
    pub fn at(&self, place: usize) -> Option<Axiom>
        ensures is_what_is_placed { result ≡ slice_index_or (placed self.now) place None }
    {
        self.places.get(place).copied().flatten()
    }

    /// Puts an axiom at a place, or makes the place vacant. What a refusal leaves relates the theory before and after, so no
    /// type can carry it.
    pub fn put(&mut self, place: usize, found: Option<Axiom>) -> Result<(), Cause>
        ensures filled_or_first_cause { MatchResult result (λ _. Filled self.old place found self.new) (λ e. FirstFitting (put_grounds (class_count self.old) (property_count self.old) place found) e) }
        ensures unchanged_when_refused { OnErr result (self.new ≡ self.old) }
    {
        // By number: with `get_mut` six goals stay open that the check finds here by itself, and it would be no plainer.
        if place >= PLACES {
            return Err(Cause::NoSuchPlace);
        }
        check_found(found, self.counts)?;
        self.places[place] = found;
        Ok(())
    }
}
