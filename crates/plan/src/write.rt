// Writing the plan of a grid's open streams.
ghost use Rattle.std.specs.Prelude.{◌≡◌, ◌≤◌, Ok, length, take, IfOk};
ghost use Rattle.grid.specs.Views.{streams_in};
ghost use Rattle.plan.specs.Buffers.{Puts};
ghost use Rattle.plan.specs.Plans.{open_streams, plan_bytes};
ghost use Rattle.plan.specs.Loads.{sizes_of};
ghost use Rattle.codec.specs.Heads.{judged};
ghost use Rattle.plan.specs.RoundTrips.{LoadsAs};
ghost use Rattle.plan.specs.Writes.{written};

use crate::buffer::put;
use crate::listed::open_count;
use crate::load::sizes_of;
use crate::put::{PlanBytes, put_head, put_record};
use codec::head::{Head, judge_head};
use grid::grid::Grid;
use layouts::ways::Ways;
use policies::policy::Policy;
use refusals::refusal::Refusal;

// The plan of the open streams, so many, under a head.
fn plan_of<W: Ways, P: Policy<W>>(grid: &Grid<W, P>, head: &Head, count: u16) -> PlanBytes
    requires count { count ≡ length (open_streams (streams_in grid.now.tables)) }
    requires judged { judged head.now count (sizes_of grid.now.tables) ≡ Ok tt }
    ensures { result.items ≡ plan_bytes head.now (streams_in grid.now.tables) }
{
    let streams = grid.streams();
    let mut plan = PlanBytes::new();
    put_head(&mut plan, head, count);
    for number in 0..64 {
        let Some(stream) = &streams[usize::from(number)] else {
            continue;
        };
        put_record(&mut plan, number, stream);
    }
    plan
}

/// Writes the plan of the open streams, in rising number, under a head at the front of a buffer, and answers the count of its bytes; what stands in the
/// buffer behind the plan is not touched. What was written loads on every blank grid of the same layout, policy and sizes as the same streams.
///
/// Refuses what `judge_head` refuses of the head with the count of open streams; its rule, width and height are not compared with the grid's layout.
/// Then refuses a buffer that is too short by `BufferTooShort`. A refusal writes nothing, and tells no place.
pub fn write<W: Ways, P: Policy<W>>(
    grid: &Grid<W, P>,
    head: &Head,
    buffer: &mut [u8],
) -> Result<usize, Refusal>
    ensures made { Puts (written head.now grid.now.tables (length buffer.old))
        buffer.old result buffer.new }
    ensures short { IfOk result (λ count. count ≤ 3530) }
    ensures loads { IfOk result (λ count. LoadsAs (P.kind grid.now.layout)
        (sizes_of grid.now.tables) (streams_in grid.now.tables) (take count buffer.new)) }
{
    let count = open_count(grid.streams());
    if let Err(fault) = judge_head(head, count, sizes_of(grid)) {
        return Err(fault.refusal);
    }
    put(buffer, plan_of(grid, head, count).as_slice())
}
