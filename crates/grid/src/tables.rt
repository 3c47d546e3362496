// The tables of a grid.
ghost use Rattle.std.specs.Prelude.{◌≡◌, length};
ghost use Rattle.grid.specs.Placed.{Placed};

use lanes::tables::Lanes;
use routes::stream::Stream;

/// The open streams by number, the queues of the lanes, and what each link can bear.
#[derive(Drop)]
pub struct Tables {
    pub(crate) lanes: Lanes,
    pub(crate) streams: [Option<Stream>; 64],
    pub(crate) capacity: u16,
    ghost all: { length streams ≡ 64 },
    ghost placed: { Placed lanes.size streams },
}
