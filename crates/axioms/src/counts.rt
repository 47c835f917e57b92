//! The two counts of names under which axioms are stated.
ghost use Rattle.std.specs.Prelude.{◌≡◌, ◌≤◌, MatchResult};
ghost use Rattle.axioms.specs.declared.causes.Cause.TheVariants.{NameOutOfRange};
ghost use Rattle.axioms.specs.Limits.{most_names};

use crate::causes::Cause;

const MOST_NAMES: u16 = 64;

/// Two counts that passed the check.
#[derive(Clone, Copy)]
pub struct Counts {
    pub classes: u8,
    pub properties: u8,
    ghost few_classes: { classes ≤ most_names },
    ghost few_properties: { properties ≤ most_names },
}

impl Counts {
    /// The counts, or a refusal where one is above 64. A check of two numbers: `try_from` of a pair would be no plainer.
    pub fn check(classes: u16, properties: u16) -> Result<Counts, Cause>
        ensures counts_exactly_when_few { MatchResult result (λ n. (n.classes ≡ classes) × (n.properties ≡ properties)) (λ e. (e ≡ NameOutOfRange) × ((classes ≤ most_names) × (properties ≤ most_names) → ⊥)) }
    {
        if classes > MOST_NAMES || properties > MOST_NAMES {
            return Err(Cause::NameOutOfRange);
        }
        Ok(Counts {
            classes: classes as u8,
            properties: properties as u8,
        })
    }
}
