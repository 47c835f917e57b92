//! The check that makes an axiom of raw numbers.
ghost use Rattle.std.specs.Prelude.{◌≡◌, true, ◌↔◌, Ok, Err};
ghost use Rattle.axioms.specs.Axioms.{States, well_formed, raw_grounds};
ghost use Rattle.axioms.specs.Ordered.{FirstFitting};
ghost use Rattle.axioms.specs.Steps.{kind_of, ranged};

use crate::axiom_types::{Axiom, RawAxiom};
use crate::causes::Cause;
use crate::counts::Counts;
use crate::kinds::Kind;
use crate::trust::Trust;

/// The kind of the raw numbers, whose names are below the counts that the kind asks for. One match over the codes, with
/// the counts in its guards: a form that the project asks for (docs/DECISIONS.md), so there is no `TryFrom` from a code.
fn kind_in_range(raw: RawAxiom, counts: Counts) -> Result<Kind, Cause>
    ensures { result ≡ ranged counts.classes counts.properties raw (kind_of raw.kind) }
{
    let (left, right) = (raw.left, raw.right);
    let classes = u16::from(counts.classes);
    let properties = u16::from(counts.properties);
    match raw.kind {
        1 | 3 if left >= classes || right >= classes => Err(Cause::NameOutOfRange),
        2 | 4 | 7..=8 if left >= properties || right >= properties => Err(Cause::NameOutOfRange),
        5..=6 if left >= properties || right >= classes => Err(Cause::NameOutOfRange),
        1 => Ok(Kind::Csub),
        2 => Ok(Kind::Psub),
        3 => Ok(Kind::Cdis),
        4 => Ok(Kind::Pdis),
        5 => Ok(Kind::Dom),
        6 => Ok(Kind::Ran),
        7 => Ok(Kind::Psubinv),
        8 => Ok(Kind::Pdisinv),
        _ => Err(Cause::UnknownKind),
    }
}

/// The axiom that the raw numbers state, or the first cause that fits.
pub fn check(raw: RawAxiom, counts: Counts) -> Result<Axiom, Cause>
    ensures axiom_exactly_when_well_formed { (a : Axiom) → (result ≡ Ok a) ↔ (States raw a × (well_formed counts.classes counts.properties a ≡ true)) }
    ensures else_the_first_cause { (e : Cause) → (result ≡ Err e) ↔ FirstFitting (raw_grounds counts.classes counts.properties raw) e }
{
    let kind = kind_in_range(raw, counts)?;
    let trust = Trust::try_from(raw.trust)?;
    if kind.names_differ() && raw.left == raw.right {
        return Err(Cause::EqualNames);
    }
    Ok(Axiom {
        kind,
        left: raw.left as u8,
        right: raw.right as u8,
        trust: trust.value,
    })
}
