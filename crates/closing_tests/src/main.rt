//! Closes vocabularies with known empty names, and reports the names that it finds empty.
#![tactic(auto)]

mod listing;

use closing::{Name, PLACES, Theory};
use listing::{Fault, theory_of};
use std::io;

/// How many places hold an axiom. By `at`, so that what is compared with the stored text has gone through it, and by a loop, since
/// `filter` and `count` take longer.
fn axiom_count(theory: &Theory) -> usize {
    let mut held = 0;
    for place in 0..PLACES {
        if theory.at(place).is_some() {
            held += 1;
        }
    }
    held
}

fn report(rt: &impl Print, theory: &Theory) -> io::Result<()> {
    let closed = theory.closed();
    let axioms = axiom_count(theory);
    let empty = closed.empty_names();
    println!(rt; "axioms {axioms}")?;
    println!(rt; "empty {empty}")?;
    // As in the tour; an iterator of its own over names would take more lines than the two chains.
    let counts = theory.counts();
    let classes = (0..counts.classes).map(Name::Class);
    let properties = (0..counts.properties).map(Name::Property);
    for name in classes
        .chain(properties)
        .filter(|name| closed.is_empty(*name))
    {
        println!(rt; "{name}")?;
    }
    Ok(())
}

/// Reports on a vocabulary: a line with its name, and then its listing.
fn survey(rt: &impl Print, vocabulary: &str) -> anyhow::Result<()> {
    let mut lines = vocabulary.lines();
    let name = lines.next().ok_or(Fault::Malformed)?;
    println!(rt; "vocabulary {name}")?;
    report(rt, &theory_of(lines)?)?;
    Ok(())
}

fn survey_all(rt: &HostRuntime) -> anyhow::Result<()> {
    let text = io::read_to_string(rt.alloc(), rt.stdin())?;
    // Nothing stands before the first of these words.
    for vocabulary in text.as_str().split("vocabulary ").skip(1) {
        survey(rt, vocabulary)?;
    }
    Ok(())
}

fn main(rt: HostRuntime) -> anyhow::Result<()> {
    survey_all(&rt)
}
