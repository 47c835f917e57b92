//! The floor layer.
use crate::faulty::FaultySheet;
use crate::workbooks::{axiom, csub};
use axioms::{Cause, Counts, Trust};
use sheets::{Fault, Floor, OpenSheet, Sheet, Workbook};
use std::test::Fail;

/// A book with one axiom of trust 90.
fn ninety() -> Result<Workbook, Cause> {
    let mut book = Workbook::new(Counts::check(3, 2)?);
    let _ = book.state(csub(0, 1, 90))?;
    Ok(book)
}

#[test]
fn floor_90_shows_trust_90_and_floor_91_hides_it(rt: HostRuntime) -> Result<(), Fail> {
    let shown = Floor::over(ninety()?, Trust::try_from(90)?);
    assert_eq!(rt; shown.at(0), shown.below.at(0));
    assert!(rt; shown.at(0).is_ok());
    let hidden = Floor::over(ninety()?, Trust::try_from(91)?);
    assert_eq!(rt; hidden.at(0), Ok(None));
    assert_eq!(rt; hidden.classes(), 3);
    assert_eq!(rt; hidden.properties(), 2);
    assert_eq!(rt; hidden.places(), 1);
    Ok(())
}

#[test]
fn a_floor_is_1_to_100(rt: HostRuntime) {
    assert_eq!(rt; Trust::try_from(0).err(), Some(Cause::TrustOutOfRange));
    assert!(rt; Trust::try_from(1).is_ok());
    assert!(rt; Trust::try_from(100).is_ok());
    assert_eq!(rt; Trust::try_from(101).err(), Some(Cause::TrustOutOfRange));
}

fn fault(depth: u8) -> Fault {
    Fault {
        cause: Cause::MalformedLine,
        place: 7,
        depth,
    }
}

#[test]
fn each_layer_hands_a_fault_up_one_deeper_to_255(rt: HostRuntime) -> Result<(), Fail> {
    let floor = Trust::try_from(1)?;
    let once = Floor::over(FaultySheet(fault(0)), floor);
    assert_eq!(rt; once.at(0), Err(fault(1)));
    let twice = Floor::over(once, floor);
    assert_eq!(rt; twice.at(0), Err(fault(2)));
    let deep = Floor::over(Floor::over(FaultySheet(fault(254)), floor), floor);
    assert_eq!(rt; deep.at(0), Err(fault(255)));
    Ok(())
}

#[test]
fn past_the_end_the_fault_is_the_layers_own(rt: HostRuntime) -> Result<(), Fail> {
    let layered = Floor::over(
        Floor::over(ninety()?, Trust::try_from(1)?),
        Trust::try_from(1)?,
    );
    assert_eq!(rt; layered.at(1), Err(Fault::no_such_place(1)));
    Ok(())
}

/// A floor of 60 over a lent book shows the trusts 60 and 95 and not 59, and the book has all three at their places afterwards.
#[test]
fn a_floor_over_a_lent_book_leaves_it_to_its_owner(rt: HostRuntime) -> Result<(), Fail> {
    let mut book = Workbook::new(Counts::check(3, 2)?);
    assert_eq!(rt; book.state(csub(0, 1, 59)), Ok(0));
    assert_eq!(rt; book.state(csub(1, 2, 60)), Ok(1));
    assert_eq!(rt; book.state(csub(2, 0, 95)), Ok(2));
    let layer = Floor::over(&book, Trust::try_from(60)?);
    assert_eq!(rt; layer.classes(), 3);
    assert_eq!(rt; layer.properties(), 2);
    assert_eq!(rt; layer.places(), 3);
    assert_eq!(rt; layer.at(0), Ok(None));
    assert_eq!(rt; layer.at(1), Ok(Some(axiom(1, 2, 60))));
    assert_eq!(rt; layer.at(2), Ok(Some(axiom(2, 0, 95))));
    assert_eq!(rt; layer.at(3), Err(Fault::no_such_place(3)));
    assert_eq!(rt; book.at(0), Ok(Some(axiom(0, 1, 59))));
    assert_eq!(rt; book.state(csub(0, 2, 40)), Ok(3));
    assert_eq!(rt; Floor::over(&book, Trust::try_from(41)?).at(3), Ok(None));
    assert_eq!(rt; book.at(3), Ok(Some(axiom(0, 2, 40))));
    Ok(())
}
