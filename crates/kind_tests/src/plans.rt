// Plans of upward grids on the ring.
use crate::ring::Ring;
use crate::tests::{hop, on_ring, request};
use crate::upward::Upward;
use codec::head::Head;
use grid::grid::Grid;
use plan::fault::{InRecord, LoadFault};
use plan::load::load;
use plan::write::write;
use refusals::refusal::Refusal;
use routes::declined::Declined;
use routes::hop::Hop;
use routes::stream::Request;
use std::process::Abort;
use std::test::Fail;

// A head that the grid fits. Its rule, width and height say nothing of the ring.
const HEAD: Head = Head {
    version: 1,
    rule: 1,
    width: 2,
    height: 2,
    lanes: 2,
    depth: 2,
    capacity: 100,
};

// Stream 3 goes up three links on lane 0, and stream 7 one link on lane 1.
const PLAN: [u8; 22] = [
    1, 1, 2, 2, 2, 2, 100, 2, 3, 0, 3, 20, 3, 0, 4, 8, 7, 0, 2, 60, 1, 17,
];

// That a stream is open with these fields and hops.
fn has(rt: &impl Abort, grid: &Grid<Ring, Upward>, stream: u16, asked: Request, hops: &[Hop]) {
    assert_eq!(rt; grid.stream(stream), Ok(asked));
    let mut table = [hop(0, 0); 24];
    let count = grid.route(stream, &mut table).unwrap_or(0);
    assert_eq!(rt; table.get(..count), Some(hops));
}

#[test]
fn written_and_loaded(rt: HostRuntime) -> Result<(), Fail> {
    let mut grid = on_ring(rt.alloc())?;
    let (first, second) = (request(0, 3, 20), request(0, 2, 60));
    let way = [hop(0, 0), hop(1, 0), hop(2, 0)];
    grid.open(7, second, &[hop(4, 1)])?;
    grid.open(3, first, &way)?;
    let mut buffer = [9; 24];
    assert_eq!(rt; write(&grid, &HEAD, &mut buffer), Ok(22));
    assert_eq!(rt; buffer.get(..22), Some(&PLAN[..]));
    let mut other = on_ring(rt.alloc())?;
    assert_eq!(rt; load(&mut other, &PLAN), Ok(2));
    has(&rt, &other, 3, first, &way);
    has(&rt, &other, 7, second, &[hop(4, 1)]);
    Ok(())
}

// From tile 3 over link 3 to tile 0 and over link 0 to tile 1, by a number that falls.
#[test]
fn not_loaded(rt: HostRuntime) -> Result<(), Fail> {
    let mut grid = on_ring(rt.alloc())?;
    let plan = [1, 1, 2, 2, 2, 2, 100, 1, 7, 3, 1, 20, 2, 12, 0];
    let fault = Declined {
        refusal: Refusal::LaneTooLow,
        hop: Some(1),
    };
    let declined = LoadFault::Grid(InRecord { number: 0, fault });
    assert_eq!(rt; load(&mut grid, &plan), Err(declined));
    assert_eq!(rt; grid.stream(7), Err(Refusal::NotOpen));
    Ok(())
}
