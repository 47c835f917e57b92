//! Tests of axioms and sheets on examples. The expected values are worked out by hand from docs/.
#![tactic(auto)]

#[cfg(test)]
mod checks;
#[cfg(test)]
mod faulty;
#[cfg(test)]
mod layers;
#[cfg(test)]
mod workbooks;
