//! A sheet that also takes statements and withdrawals, and has no faulty place.
ghost use Rattle.std.specs.Prelude.{◌≡◌, OnErr};
ghost use Rattle.sheets.specs.OpenSheets.{Open, NoFaultFewPlaces, Statement, Withdrawal};

use crate::sheet::Sheet;
use axioms::{Axiom, Cause, RawAxiom};

/// That it has no fault, and few places, stands in what each call promises: a form that the project asks for
/// (docs/DECISIONS.md). What a refusal leaves relates the sheet before and after, so no type can carry it.
pub trait OpenSheet: Sheet {
    /// Its content, how many more statements it takes, and whether it is held.
    ghost meaning: { Self → Open };

    /// Whether it refuses statements and withdrawals for now.
    fn is_held(&self) -> bool
        ensures says_whether_held { result ≡ (meaning self.now).held }
        ensures no_fault_and_few_places { NoFaultFewPlaces (meaning self.now) };

    /// Adds the axiom that the raw numbers state as a last place, and answers that place.
    fn state(&mut self, raw: RawAxiom) -> Result<usize, Cause>
        ensures added_or_first_cause { Statement (meaning self.old) raw result (meaning self.new) }
        ensures unchanged_when_refused { OnErr result (self.new ≡ self.old) }
        ensures no_fault_and_few_places { NoFaultFewPlaces (meaning self.new) };

    /// Makes the place vacant, and answers the axiom that it held.
    fn withdraw(&mut self, place: usize) -> Result<Axiom, Cause>
        ensures vacated_or_first_cause { Withdrawal (meaning self.old) place result (meaning self.new) }
        ensures unchanged_when_refused { OnErr result (self.new ≡ self.old) }
        ensures no_fault_and_few_places { NoFaultFewPlaces (meaning self.new) };

    /// What it means as an open sheet has the content that it has as a sheet.
    ghost same_content: { (s : Self) → (meaning s).content ≡ Self.Sheet.content s };
}
