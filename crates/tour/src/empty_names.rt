//! Closing a workbook's axioms, and the names that are empty under them.
use crate::shown::Shown;
use axioms::{Counts, Kind};
use closing::{Name, Stage1, Stage2, Stage3, Stage4, Stage5, Theory};
use sheets::{Sheet, Workbook};
use std::io;

/// Puts each place of the book into the theory, at the same number, by which a sheet is asked and a theory filled. A
/// workbook's axioms are well formed under its counts, so none is refused.
fn fill(theory: &mut Theory, book: &Workbook) {
    for place in 0..book.places() {
        if let Ok(found) = book.at(place) {
            let _ = theory.put(place, found);
        }
    }
}

/// A word for each of the three answers: `map_or` and an `if` would be no plainer.
fn yes_or_no(answer: Option<bool>) -> &'static str {
    match answer {
        Some(true) => "yes",
        Some(false) => "no",
        None => "not known yet",
    }
}

/// Prints each name that is empty.
fn list(rt: &impl Print, fifth: &Stage5<'_>, counts: Counts) -> io::Result<()> {
    // As in the test program; an iterator of its own over names would take more lines than the two chains.
    let classes = (0..counts.classes).map(Name::Class);
    let properties = (0..counts.properties).map(Name::Property);
    for name in classes
        .chain(properties)
        .filter(|name| fifth.is_empty(*name))
    {
        println!(rt; "{} is empty", Shown(name))?;
    }
    Ok(())
}

/// Goes through the five stages over the axioms of the book, and says which names are empty.
pub(crate) fn close(rt: &impl Print, book: &Workbook, mut theory: Theory) -> io::Result<()> {
    fill(&mut theory, book);
    let first = Stage1::over(&theory);
    let within = yes_or_no(first.known(Kind::Csub, 3, 0));
    println!(rt; "stage 1: glazed tiles are products: {within}")?;
    let apart = yes_or_no(first.known(Kind::Cdis, 3, 3));
    println!(rt; "stage 1: glazed tiles are disjoint from themselves: {apart}")?;
    let second = Stage2::after(first);
    let third = Stage3::after(second);
    let fourth = Stage4::after(third);
    let apart = yes_or_no(fourth.known(Kind::Cdis, 3, 3));
    println!(rt; "stage 4: glazed tiles are disjoint from themselves: {apart}")?;
    let fifth = Stage5::after(fourth);
    let number = fifth.empty_names();
    println!(rt; "stage 5: empty names: {number}")?;
    list(rt, &fifth, theory.counts())
}
