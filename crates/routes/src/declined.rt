// Refusals that may tell a hop.
ghost use Rattle.std.specs.Prelude.{◌≡◌};
ghost use Rattle.routes.specs.Checks.{no_hop};

use refusals::refusal::Refusal;

/// Why a stream is declined: a refusal, with the hop that it tells, if it tells one.
#[derive(Clone, Copy, PartialEq, Eq, Debug)]
pub struct Declined {
    /// Why it is declined.
    pub refusal: Refusal,
    /// The hop of the route that is to blame, counted from 0.
    pub hop: Option<usize>,
}

/// A refusal that tells no hop.
impl From<Refusal> for Declined {
    ghost from_gives = { λ refusal declined. declined ≡ no_hop refusal };

    fn from(refusal: Refusal) -> Declined {
        Declined { refusal, hop: None }
    }
}
