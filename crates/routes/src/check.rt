// The checks that go through a route hop by hop.
ghost use Rattle.std.specs.Prelude.{◌≡◌};
ghost use Rattle.routes.specs.Checks.{hop_checks, refusal_of};

use refusals::refusal::Refusal;

/// A check that each hop of a route passes or fails, in the order in which they are made.
#[derive(Clone, Copy)]
pub(crate) enum Check {
    /// The link and the lane are there.
    OnGrid,
    /// The first link starts at the source.
    Start,
    /// The layout does not tell *never* of the hop before and this one.
    Turn,
    /// The lane is not below that of the hop before, and above it where the layout tells *climb*.
    Lane,
    /// The last link ends at the target.
    End,
    /// The link stands nowhere earlier in the route.
    Once,
    /// The link bears the demand on top of its load.
    Capacity,
}

impl Check {
    /// All checks, in their order.
    pub(crate) fn all() -> [Check; 7]
        ensures { result ≡ hop_checks }
    {
        [
            Check::OnGrid,
            Check::Start,
            Check::Turn,
            Check::Lane,
            Check::End,
            Check::Once,
            Check::Capacity,
        ]
    }
}

/// The refusal of a hop that fails the check.
impl From<Check> for Refusal {
    ghost from_gives = { λ check refusal. refusal ≡ refusal_of check };

    fn from(check: Check) -> Refusal {
        match check {
            Check::OnGrid => Refusal::OffGrid,
            Check::Start => Refusal::WrongStart,
            Check::Turn => Refusal::NoTurn,
            Check::Lane => Refusal::LaneTooLow,
            Check::End => Refusal::WrongEnd,
            Check::Once => Refusal::RepeatedLink,
            Check::Capacity => Refusal::OverCapacity,
        }
    }
}
