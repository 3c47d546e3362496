// How hops are numbered in a plan.
ghost use Rattle.std.specs.Prelude.{◌≡◌};
ghost use Rattle.codec.specs.Records.{hop_of};

use routes::hop::Hop;

/// The hop that a number of a plan stands for: the link is a quarter of it, rounded down, and the lane is what is left.
pub fn hop_of(number: u16) -> Hop
    ensures { result ≡ hop_of number }
{
    Hop {
        link: number / 4,
        // proved to lose nothing
        lane: (number % 4) as u8,
    }
}
