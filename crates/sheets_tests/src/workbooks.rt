//! Statements and withdrawals on a workbook.
use axioms::{Axiom, Cause, Counts, Kind, RawAxiom};
use sheets::{Fault, OpenSheet, Sheet, Workbook};
use std::test::Fail;

pub(crate) fn csub(left: u16, right: u16, trust: u16) -> RawAxiom {
    RawAxiom::new(Kind::Csub, left, right, trust)
}

pub(crate) fn axiom(left: u8, right: u8, trust: u16) -> Axiom {
    Axiom {
        kind: Kind::Csub,
        left,
        right,
        trust,
    }
}

#[test]
fn places_do_not_shift_after_a_withdrawal(rt: HostRuntime) -> Result<(), Fail> {
    let mut book = Workbook::new(Counts::check(64, 0)?);
    assert_eq!(rt; book.state(csub(0, 1, 10)), Ok(0));
    assert_eq!(rt; book.state(csub(1, 2, 20)), Ok(1));
    assert_eq!(rt; book.state(csub(2, 63, 30)), Ok(2));
    assert_eq!(rt; book.withdraw(1), Ok(axiom(1, 2, 20)));
    assert_eq!(rt; book.places(), 3);
    assert_eq!(rt; book.at(0), Ok(Some(axiom(0, 1, 10))));
    assert_eq!(rt; book.at(1), Ok(None));
    assert_eq!(rt; book.at(2), Ok(Some(axiom(2, 63, 30))));
    assert_eq!(rt; book.state(csub(3, 4, 40)), Ok(3));
    Ok(())
}

#[test]
fn withdrawals_are_refused_with_1_and_then_2(rt: HostRuntime) -> Result<(), Fail> {
    let mut book = Workbook::new(Counts::check(2, 2)?);
    assert_eq!(rt; book.withdraw(0), Err(Cause::NoSuchPlace));
    assert_eq!(rt; book.state(csub(0, 1, 50)), Ok(0));
    assert_eq!(rt; book.withdraw(1), Err(Cause::NoSuchPlace));
    assert_eq!(rt; book.withdraw(0), Ok(axiom(0, 1, 50)));
    assert_eq!(rt; book.withdraw(0), Err(Cause::VacantPlace));
    assert!(rt; !book.is_held());
    Ok(())
}

#[test]
fn past_the_end_is_a_fault_of_its_own(rt: HostRuntime) -> Result<(), Fail> {
    let book = Workbook::new(Counts::check(2, 2)?);
    let fault = Fault {
        cause: Cause::NoSuchPlace,
        place: 600,
        depth: 0,
    };
    assert_eq!(rt; book.at(600), Err(fault));
    Ok(())
}

/// A withdrawal frees no room, and a refused statement takes none.
#[test]
fn the_513th_statement_is_refused_with_10(rt: HostRuntime) -> Result<(), Fail> {
    let mut book = Workbook::new(Counts::check(2, 0)?);
    for place in 0..512usize {
        assert_eq!(rt; book.state(csub(0, 2, 50)), Err(Cause::NameOutOfRange));
        assert_eq!(rt; book.state(csub(0, 1, 50)), Ok(place));
    }
    assert_eq!(rt; book.state(csub(0, 1, 50)), Err(Cause::NoRoom));
    assert_eq!(rt; book.state(csub(0, 2, 50)), Err(Cause::NameOutOfRange));
    assert_eq!(rt; book.withdraw(511), Ok(axiom(0, 1, 50)));
    assert_eq!(rt; book.state(csub(0, 1, 50)), Err(Cause::NoRoom));
    assert_eq!(rt; book.places(), 512);
    Ok(())
}

#[test]
fn counts_are_at_most_64(rt: HostRuntime) {
    assert!(rt; Counts::check(64, 64).is_ok());
    assert_eq!(rt; Counts::check(65, 0).err(), Some(Cause::NameOutOfRange));
    assert_eq!(rt; Counts::check(0, 65).err(), Some(Cause::NameOutOfRange));
    assert_eq!(rt; Counts::check(300, 0).err(), Some(Cause::NameOutOfRange));
}
