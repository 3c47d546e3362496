// The hops ahead, worked out by hand, on a mesh of 2 × 2 tiles with two items to a lane.
use crate::tests::{EAST_NORTH, hop, opened, request, send, step};
use grid::grid::Grid;
use grid::step::Step;
use layouts::mesh::Mesh;
use refusals::refusal::Refusal;
use routes::hop::Hop;
use routes::stream::Request;
use std::process::Abort;
use std::test::Fail;

// A send and a step that go, with the hops ahead after them.
fn sent(rt: &impl Abort, grid: &mut Grid<Mesh>, slots: &mut [u32], item: (u16, u32), ahead: usize) {
    send(rt, grid, slots, item, Ok(()));
    assert_eq!(rt; grid.hops_ahead(), ahead);
}

fn stepped(
    rt: &impl Abort,
    grid: &mut Grid<Mesh>,
    slots: &mut [u32],
    (lane, answer): (Hop, Step<u32>),
    ahead: usize,
) {
    step(rt, grid, slots, lane, Ok(answer));
    assert_eq!(rt; grid.hops_ahead(), ahead);
}

// Streams 3 and 63 go 0, 1, 3, each on lanes of its own, and stream 1 goes only to tile 1, on the lane of stream 3.
#[test]
fn hops_ahead(rt: HostRuntime) -> Result<(), Fail> {
    let streams: [(u16, Request, &[Hop]); 3] = [
        (3, request(0, 3, 10), &EAST_NORTH),
        (63, request(0, 3, 20), &[hop(0, 2), hop(5, 2)]),
        (1, request(0, 1, 30), &[hop(0, 0)]),
    ];
    let mut grid = opened(rt.alloc(), 2, 2, &streams)?;
    let mut slots = [0; 48];
    assert_eq!(rt; grid.hops_ahead(), 0);
    for (item, ahead) in [((3, 10), 2), ((1, 30), 3), ((63, 20), 5)] {
        sent(&rt, &mut grid, &mut slots, item, ahead);
    }
    stepped(&rt, &mut grid, &mut slots, (hop(0, 0), Step::Moved(3)), 4);
    sent(&rt, &mut grid, &mut slots, (3, 11), 6);
    let steps = [
        ((hop(0, 2), Step::Moved(63)), 5),
        ((hop(0, 0), Step::Out(1, 30)), 4),
        ((hop(5, 0), Step::Out(3, 10)), 3),
        ((hop(0, 0), Step::Moved(3)), 2),
        ((hop(5, 0), Step::Out(3, 11)), 1),
    ];
    for (made, ahead) in steps {
        stepped(&rt, &mut grid, &mut slots, made, ahead);
    }
    step(
        &rt,
        &mut grid,
        &mut slots,
        hop(0, 2),
        Err(Refusal::LaneEmpty),
    );
    assert_eq!(rt; grid.hops_ahead(), 1);
    stepped(
        &rt,
        &mut grid,
        &mut slots,
        (hop(5, 2), Step::Out(63, 20)),
        0,
    );
    Ok(())
}
