//! Reading a listing: a line with the counts of names, and then a line for each place.
use axioms::{Axiom, Cause, Counts, Kind, RawAxiom, check};
use closing::Theory;
use std::str::{Lines, Split};
use thiserror::Error;

/// Why a listing is not read.
#[derive(Clone, Copy, Debug, Error)]
pub(crate) enum Fault {
    /// A line has not the form of a listing's line.
    #[error("a line is malformed")]
    Malformed,
    /// The numbers of a line are refused.
    #[error("a line is refused with {0}")]
    Refused(#[from] Cause),
}

fn number(words: &mut Split<'_, char>) -> Result<u16, Fault> {
    let word = words.next().ok_or(Fault::Malformed)?;
    word.parse::<u16>().map_err(|_| Fault::Malformed)
}

fn ended(words: &mut Split<'_, char>) -> Result<(), Fault> {
    words.next().map_or(Ok(()), |_| Err(Fault::Malformed))
}

/// The kind of a word. No `FromStr` in the library, since this is the one caller: it would be no plainer.
fn kind_of(word: &str) -> Result<Kind, Fault> {
    Kind::all()
        .into_iter()
        .find(|kind| kind.word() == word)
        .ok_or(Fault::Malformed)
}

/// The counts of a line `names CLASSES PROPERTIES FLOOR`.
fn counts_of(line: &str) -> Result<Counts, Fault> {
    let mut words = line.split(' ');
    if words.next() != Some("names") {
        return Err(Fault::Malformed);
    }
    let classes = number(&mut words)?;
    let properties = number(&mut words)?;
    let _floor = number(&mut words)?;
    ended(&mut words)?;
    Ok(Counts::check(classes, properties)?)
}

/// The axiom of a line `KIND LEFT RIGHT TRUST`, or nothing for the line `-` of a vacant place.
fn place_of(line: &str, counts: Counts) -> Result<Option<Axiom>, Fault> {
    if line == "-" {
        return Ok(None);
    }
    let mut words = line.split(' ');
    let kind = kind_of(words.next().ok_or(Fault::Malformed)?)?;
    let raw = RawAxiom::new(
        kind,
        number(&mut words)?,
        number(&mut words)?,
        number(&mut words)?,
    );
    ended(&mut words)?;
    Ok(Some(check(raw, counts)?))
}

/// The theory that the lines of a listing state.
pub(crate) fn theory_of(mut lines: Lines<'_>) -> Result<Theory, Fault> {
    let counts = counts_of(lines.next().ok_or(Fault::Malformed)?)?;
    let mut theory = Theory::new(counts);
    for (place, line) in lines.enumerate() {
        theory.put(place, place_of(line, counts)?)?;
    }
    Ok(theory)
}
