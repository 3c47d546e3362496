// The checks that go through a route hop by hop.
ghost use Rattle.std.specs.Prelude.{◌≡◌};
ghost use Rattle.kind_tests.specs.Upward.{hop_checks, refusal_of};

use refusals::refusal::Refusal;

/// A check that each hop of a route passes or fails, in the order in which they are made.
#[derive(Clone, Copy)]
pub(crate) enum Check {
    /// The link and the lane are there.
    OnGrid,
    /// The first link starts at the source.
    Start,
    /// The link starts where the link before ends.
    Joint,
    /// The number of the link is above that of the link before.
    Number,
    /// The last link ends at the target.
    End,
    /// The link bears the demand on top of its load.
    Capacity,
}

impl Check {
    /// All checks, in their order.
    pub(crate) fn all() -> [Check; 6]
        ensures { result ≡ hop_checks }
    {
        [
            Check::OnGrid,
            Check::Start,
            Check::Joint,
            Check::Number,
            Check::End,
            Check::Capacity,
        ]
    }
}

/// The refusal of a hop that fails the check.
impl From<Check> for Refusal {
    ghost from_gives = { λ check refusal. refusal ≡ refusal_of check };

    fn from(check: Check) -> Refusal {
        match check {
            Check::OnGrid => Refusal::OffGrid,
            Check::Start => Refusal::WrongStart,
            Check::Joint => Refusal::NoTurn,
            Check::Number => Refusal::LaneTooLow,
            Check::End => Refusal::WrongEnd,
            Check::Capacity => Refusal::OverCapacity,
        }
    }
}
