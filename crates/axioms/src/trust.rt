//! How far an axiom is trusted.
ghost use Rattle.std.specs.Prelude.{◌≡◌, true};
ghost use Rattle.axioms.specs.Limits.{in_trust};

use crate::causes::Cause;

const LEAST_TRUST: u16 = 1;

const MOST_TRUST: u16 = 100;

/// A trust, or a floor under trusts, that passed the check.
#[derive(Clone, Copy)]
pub struct Trust {
    pub value: u16,
    ghost in_range: { in_trust value ≡ true },
}

/// The trust, or a refusal where the number is not 1 to 100.
impl TryFrom<u16> for Trust {
    ghost use Rattle.axioms.specs.Trusts.{MakesTrust};

    type Error = Cause;

    ghost try_from_gives = { MakesTrust };

    fn try_from(value: u16) -> Result<Trust, Cause>
        ensures trust_exactly_when_in_range { MakesTrust value result }
    {
        if value < LEAST_TRUST || value > MOST_TRUST {
            return Err(Cause::TrustOutOfRange);
        }
        Ok(Trust { value })
    }
}
