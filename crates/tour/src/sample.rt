//! A small trading vocabulary: who supplies tiles and grout to whom, under which contracts.
use axioms::{Kind, RawAxiom, Sort};

pub(crate) const CLASSES: [&str; 6] = [
    "Product",
    "Tile",
    "Grout",
    "GlazedTile",
    "Contract",
    "Company",
];

pub(crate) const PROPERTIES: [&str; 4] = ["supplies", "suppliedBy", "signs", "precedes"];

/// The axioms of the vocabulary, in the order in which they are stated.
pub(crate) fn statements() -> [RawAxiom; 10] {
    [
        RawAxiom::new(Kind::Csub, 1, 0, 95),
        RawAxiom::new(Kind::Csub, 2, 0, 95),
        RawAxiom::new(Kind::Csub, 3, 1, 90),
        RawAxiom::new(Kind::Cdis, 1, 2, 80),
        RawAxiom::new(Kind::Csub, 3, 2, 40),
        RawAxiom::new(Kind::Dom, 0, 5, 85),
        RawAxiom::new(Kind::Ran, 0, 0, 60),
        RawAxiom::new(Kind::Psubinv, 0, 1, 100),
        RawAxiom::new(Kind::Ran, 2, 4, 75),
        RawAxiom::new(Kind::Pdisinv, 3, 3, 59),
    ]
}

/// The place of the statement that an editor takes back: that glazed tiles are grout.
pub(crate) const MISTAKE: usize = 4;

pub(crate) const FLOOR: u16 = 60;

/// The word of a name. By sort and number, since an axiom has its names so: a struct of the two would be no plainer.
pub(crate) fn name(sort: Sort, number: u8) -> &'static str {
    let words = match sort {
        Sort::Class => CLASSES.as_slice(),
        Sort::Property => PROPERTIES.as_slice(),
    };
    words.get(usize::from(number)).copied().unwrap_or("unnamed")
}
