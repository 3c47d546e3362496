// What is worked out once for a search.
ghost use Rattle.std.specs.Prelude.{◌≡◌, ◌≤◌, length};

use crate::incoming::Incoming;
use routes::stream::Request;

/// A request with what its search looks up in each round: how many lanes a link has, what each link bears with the demand added, if
/// it can, and the links into each tile.
#[derive(Drop)]
pub(crate) struct Prepared {
    pub(crate) request: Request,
    pub(crate) lanes: u16,
    pub(crate) costs: [Option<u16>; 256],
    pub(crate) incoming: Incoming,
    ghost wide: { (1 ≤ lanes) × (lanes ≤ 4) },
    ghost whole: { length costs ≡ 256 },
}
