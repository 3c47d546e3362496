// Tables with no item, and their size.
ghost use Rattle.std.specs.Prelude.{◌≡◌, IfOk};
ghost use Rattle.lanes.specs.Queues.{IsBlank};

use crate::ring::Ring;
use crate::size::Size;
use crate::tables::Lanes;
use std::alloc::{AllocError, Global};

impl Lanes {
    /// The tables of a size, with no item. It fails only where there is no memory; no later call allocates.
    pub fn blank(heap: Global, size: Size) -> Result<Lanes, AllocError>
        ensures { IfOk result (λ l. (l.size ≡ size) × IsBlank l) }
    {
        Ok(Lanes {
            size,
            rings: vec![in heap; Ring { first: 0, count: 0 }; size.lane_count()]?,
            owners: vec![in heap; 0; size.slots()]?,
        })
    }

    /// The size of the grid whose lanes these are.
    pub fn size(&self) -> Size
        ensures { result ≡ self.now.size }
    {
        self.size
    }
}
