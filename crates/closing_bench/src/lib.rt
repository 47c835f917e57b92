//! The closing behind functions of the C calling convention, for a benchmark to call.
#![tactic(auto)]

use axioms::{Axiom, Cause, Counts, Kind, RawAxiom, check};
use closing::Theory;

/// The axiom of four bytes: its kind, left, right and trust.
fn axiom_of(bytes: [u8; 4], counts: Counts) -> Result<Axiom, Cause> {
    let [kind, left, right, trust] = bytes.map(u16::from);
    let raw = RawAxiom {
        kind,
        left,
        right,
        trust,
    };
    check(raw, counts)
}

/// The theory with the axiom of the first four bytes at place 0, and so on, unless a count is above 64. An axiom that is
/// refused leaves its place vacant.
fn theory_of(classes: u8, properties: u8, axioms: &[u8]) -> Result<Theory, Cause> {
    let counts = Counts::check(u16::from(classes), u16::from(properties))?;
    let mut theory = Theory::new(counts);
    let (each, _) = axioms.as_chunks::<4>();
    for (place, bytes) in each.iter().enumerate() {
        let _ = theory.put(place, axiom_of(*bytes, counts).ok());
    }
    Ok(theory)
}

/// What a function answers of the theory, or the greatest number where a count is above 64, since a caller by the C calling
/// convention takes no `Result`. The counts and the bytes come by themselves, as that convention passes them.
fn answered<F: FnOnce(&Theory) -> u32>(classes: u8, properties: u8, axioms: &[u8], answer: F) -> u32
    requires { F.IsAlwaysCallable answer }
{
    match theory_of(classes, properties, axioms) {
        Ok(theory) => answer(&theory),
        Err(_) => u32::MAX,
    }
}

/// How many names are empty under the axioms. Like the two functions below, it answers the greatest number where a count
/// is above 64.
#[unsafe(no_mangle)]
pub extern "C" fn close_once(classes: u8, properties: u8, axioms: &[u8]) -> u32 {
    answered(classes, properties, axioms, |theory| {
        u32::from(theory.closed().empty_names())
    })
}

/// Closes the axioms so many times. The answer is the sum over the rounds of the number of empty names and of one
/// cell of pdisinv.
#[unsafe(no_mangle)]
pub extern "C" fn close_times(classes: u8, properties: u8, axioms: &[u8], times: u32) -> u32 {
    answered(classes, properties, axioms, |theory| {
        let mut sum = 0u32;
        for round in 0..times {
            let closed = theory.closed();
            let cell = closed.read(Kind::Pdisinv, (round % 64) as u8, (round / 64 % 64) as u8);
            sum = sum
                .wrapping_add(u32::from(closed.empty_names()))
                .wrapping_add(u32::from(cell));
        }
        sum
    })
}

/// A number that depends on each cell of the eight closed relations.
#[unsafe(no_mangle)]
pub extern "C" fn close_digest(classes: u8, properties: u8, axioms: &[u8]) -> u32 {
    answered(classes, properties, axioms, |theory| {
        let closed = theory.closed();
        let mut digest = 0u32;
        // By numbers, since it reads at and past the counts too.
        for kind in Kind::all() {
            for left in 0u8..64 {
                for right in 0u8..64 {
                    let cell = u32::from(closed.read(kind, left, right));
                    digest = digest.wrapping_mul(31).wrapping_add(cell);
                }
            }
        }
        digest
    })
}
