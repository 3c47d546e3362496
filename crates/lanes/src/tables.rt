// The tables of the lanes.
ghost use Rattle.std.specs.Prelude.{◌≡◌, vec_len};
ghost use Rattle.lanes.specs.Sizes.{lane_count, slot_count};
ghost use Rattle.lanes.specs.Rings.{RingsFit};

use crate::ring::Ring;
use crate::size::Size;

/// The queues of all lanes. An item stands in a slot that the caller lends; the tables keep where the items of each lane
/// are, and the stream of each slot's item. A call that refuses changes nothing.
#[derive(Drop)]
pub struct Lanes {
    pub(crate) size: Size,
    // lane by lane, the lanes of a link in a row
    pub(crate) rings: Vec<Ring>,
    // the stream of each slot's item; the items stand in slots that the caller lends at each call
    pub(crate) owners: Vec<u16>,
    ghost wide: { vec_len rings ≡ lane_count size },
    ghost long: { vec_len owners ≡ slot_count size },
    ghost fit: { RingsFit size.depth rings.items },
}
