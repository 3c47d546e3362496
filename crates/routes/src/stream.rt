// Streams.
ghost use Rattle.std.specs.Prelude.{◌≡◌};
ghost use Rattle.routes.specs.Routes.{uses};

use crate::hop::Hop;
use crate::route::Route;

/// What a stream asks for: to carry a demand from a source tile to a target tile.
#[derive(Clone, Copy, PartialEq, Eq, Debug)]
pub struct Request {
    /// The tile where it starts.
    pub source: u16,
    /// The tile where it ends.
    pub target: u16,
    /// How much of each link on its way it asks for.
    pub demand: u16,
}

/// An open stream: what it asked for, and its route.
#[derive(Clone, Copy)]
pub struct Stream {
    /// What it asked for.
    pub request: Request,
    /// The route that it takes.
    pub route: Route,
}

// Whether a link stands in a list of hops. A loop, as `link_load_by_table` has one.
pub(crate) fn uses_link(hops: &[Hop], link: u16) -> bool
    ensures { result ≡ uses link hops.now }
{
    for hop in hops {
        if hop.link == link {
            return true;
        }
    }
    false
}
