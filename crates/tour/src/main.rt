//! A walk through a workbook: statements, refusals, empty names, a withdrawal, and a floor over the book.
#![tactic(auto)]

mod empty_names;
mod sample;
mod shown;

use axioms::{Cause, Counts, Kind, RawAxiom, Trust};
use closing::Theory;
use sheets::{Floor, OpenSheet, SLOTS, Sheet, Workbook};
use shown::{Answer, Sentence};
use std::{fmt, io};

/// States the sample's axioms, and says at which place each stands.
fn state_all(rt: &impl Print, book: &mut Workbook) -> io::Result<()> {
    for stated in sample::statements() {
        match book.state(stated) {
            Ok(place) => println!(rt; "place {place}: {}", Answer(book.at(place)))?,
            Err(cause) => refused(rt, "a statement of the sample", cause)?,
        }
    }
    Ok(())
}

fn refused(rt: &impl Print, what: impl fmt::Display + Drop, cause: Cause) -> io::Result<()> {
    println!(rt; "{what}: refused with {cause}")
}

/// Says how a statement or a withdrawal fares: what it did, or why it is refused.
fn tell<T: fmt::Display + Drop>(
    rt: &impl Print,
    what: &str,
    did: &str,
    outcome: Result<T, Cause>,
) -> io::Result<()> {
    match outcome {
        Ok(answer) => println!(rt; "{what}: {did} {answer}"),
        Err(cause) => refused(rt, what, cause),
    }
}

fn try_statement(
    rt: &impl Print,
    book: &mut Workbook,
    what: &str,
    stated: RawAxiom,
) -> io::Result<()> {
    tell(rt, what, "stated at place", book.state(stated))
}

fn try_withdrawal(
    rt: &impl Print,
    book: &mut Workbook,
    what: &str,
    place: usize,
) -> io::Result<()> {
    tell(rt, what, "took back", book.withdraw(place).map(Sentence))
}

/// Fills a workbook, and says how the statement after the last slot fares.
fn fill(rt: &impl Print, counts: Counts) -> io::Result<()> {
    let mut book = Workbook::new(counts);
    for _ in 0..SLOTS {
        let _ = book.state(RawAxiom::new(Kind::Csub, 1, 0, 50));
    }
    let places = book.places();
    println!(rt; "a second workbook takes {places} statements")?;
    try_statement(
        rt,
        &mut book,
        "the next statement",
        RawAxiom::new(Kind::Csub, 1, 0, 50),
    )
}

/// What both sheets answer, place by place and once past the end, as no iterator over the places would.
fn compare(rt: &impl Print, layered: &Floor<&Workbook>) -> io::Result<()> {
    for place in 0..=layered.places() {
        println!(rt; "place {place}")?;
        println!(rt; "  book:  {}", Answer(layered.below.at(place)))?;
        println!(rt; "  floor: {}", Answer(layered.at(place)))?;
    }
    Ok(())
}

fn tour(rt: &impl Print, counts: Counts, floor: Trust) -> io::Result<()> {
    let mut book = Workbook::new(counts);
    let classes = book.classes();
    let properties = book.properties();
    println!(rt; "A workbook for {classes} classes and {properties} properties")?;
    state_all(rt, &mut book)?;
    println!(rt; "Refused statements")?;
    try_statement(
        rt,
        &mut book,
        "kind 9",
        RawAxiom {
            kind: 9,
            left: 0,
            right: 0,
            trust: 50,
        },
    )?;
    try_statement(
        rt,
        &mut book,
        "class 6 of 6",
        RawAxiom::new(Kind::Csub, 6, 0, 50),
    )?;
    try_statement(
        rt,
        &mut book,
        "trust 101",
        RawAxiom::new(Kind::Csub, 1, 0, 101),
    )?;
    try_statement(
        rt,
        &mut book,
        "Tile disjoint from itself",
        RawAxiom::new(Kind::Cdis, 1, 1, 50),
    )?;
    fill(rt, counts)?;
    println!(rt; "Closing the book")?;
    empty_names::close(rt, &book, Theory::new(counts))?;
    println!(rt; "Withdrawals")?;
    try_withdrawal(rt, &mut book, "withdrawal from place 10", 10)?;
    try_withdrawal(rt, &mut book, "withdrawal from place 4", sample::MISTAKE)?;
    try_withdrawal(rt, &mut book, "and once more", sample::MISTAKE)?;
    println!(rt; "Closing the book again")?;
    empty_names::close(rt, &book, Theory::new(counts))?;
    let value = floor.value;
    println!(rt; "The book, and a floor of {value} over it")?;
    compare(rt, &Floor::over(&book, floor))
}

/// The tour over a book with so many classes and that floor, if there can be such.
fn try_tour(rt: &impl Print, classes: u16, floor: u16) -> io::Result<()> {
    match (
        Counts::check(classes, sample::PROPERTIES.len() as u16),
        Trust::try_from(floor),
    ) {
        (Err(cause), _) => refused(rt, format_args!("a workbook for {classes} classes"), cause),
        (_, Err(cause)) => refused(rt, format_args!("a floor of {floor}"), cause),
        (Ok(counts), Ok(floor)) => tour(rt, counts, floor),
    }
}

fn main(rt: HostRuntime) -> io::Result<()> {
    let classes = sample::CLASSES.len() as u16;
    try_tour(&rt, 65, sample::FLOOR)?;
    try_tour(&rt, classes, 0)?;
    try_tour(&rt, classes, sample::FLOOR)
}
