//! The check of raw numbers.
use axioms::{Axiom, Cause, Counts, Kind, RawAxiom, check};

fn checked(kind: u16, left: u16, right: u16, trust: u16) -> Result<Axiom, Cause> {
    let counts = Counts::check(3, 5)?;
    check(
        RawAxiom {
            kind,
            left,
            right,
            trust,
        },
        counts,
    )
}

#[test]
fn trust_100_passes_and_101_does_not(rt: HostRuntime) {
    let passed = Axiom {
        kind: Kind::Csub,
        left: 0,
        right: 1,
        trust: 100,
    };
    assert_eq!(rt; checked(1, 0, 1, 100), Ok(passed));
    assert_eq!(rt; checked(1, 0, 1, 101), Err(Cause::TrustOutOfRange));
    assert_eq!(rt; checked(1, 0, 1, 0), Err(Cause::TrustOutOfRange));
}

/// Three classes and five properties: the sorts of dom are a property and a class.
#[test]
fn names_are_below_the_count_of_their_sort(rt: HostRuntime) {
    let passed = Axiom {
        kind: Kind::Dom,
        left: 4,
        right: 2,
        trust: 1,
    };
    assert_eq!(rt; checked(5, 4, 2, 1), Ok(passed));
    assert_eq!(rt; checked(5, 5, 2, 1), Err(Cause::NameOutOfRange));
    assert_eq!(rt; checked(5, 4, 3, 1), Err(Cause::NameOutOfRange));
    assert_eq!(rt; checked(3, 3, 0, 1), Err(Cause::NameOutOfRange));
    assert_eq!(rt; checked(8, 0, 300, 1), Err(Cause::NameOutOfRange));
}

#[test]
fn the_first_cause_that_fits_is_answered(rt: HostRuntime) {
    assert_eq!(rt; checked(9, 9, 9, 0), Err(Cause::UnknownKind));
    assert_eq!(rt; checked(0, 0, 0, 50), Err(Cause::UnknownKind));
    assert_eq!(rt; checked(257, 0, 1, 50), Err(Cause::UnknownKind));
    assert_eq!(rt; checked(3, 9, 9, 0), Err(Cause::NameOutOfRange));
    assert_eq!(rt; checked(3, 2, 2, 0), Err(Cause::TrustOutOfRange));
    assert_eq!(rt; checked(3, 2, 2, 50), Err(Cause::EqualNames));
    assert_eq!(rt; checked(4, 2, 2, 50), Err(Cause::EqualNames));
}

#[test]
fn a_name_may_be_below_itself_or_its_own_inverse(rt: HostRuntime) {
    // By their codes, since the check of raw numbers is what is tested.
    for kind in [1u16, 2, 7, 8] {
        assert!(rt; checked(kind, 2, 2, 50).is_ok());
    }
}
