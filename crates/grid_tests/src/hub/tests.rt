// Runs on the hub, with a capacity of 100 and answers worked out by hand.
use crate::hub::Hub;
use crate::seeks::seek;
use crate::tests::{at, hop, request, send, step};
use grid::grid::Grid;
use grid::step::Step;
use layouts::ways::Ways;
use refusals::refusal::Refusal;
use search::total::Total;
use std::alloc::Global;
use std::test::Fail;

// A grid with so many lanes to a link, and two items to a lane.
fn blank(heap: Global, lanes: u16) -> Result<Grid<Hub>, Fail> {
    Ok(Grid::blank(heap, Hub, lanes, 2, 100)?)
}

// Streams that are opened by hand through the hub. From 2 to 1 the links meet there, but the layout tells *never*; and from
// 3 to 2 a stream has to climb.
#[test]
fn through_the_hub(rt: HostRuntime) -> Result<(), Fail> {
    let mut grid = blank(rt.alloc(), 2)?;
    grid.open(0, request(1, 2, 10), &[hop(0, 0), hop(6, 0)])?;
    assert_eq!(rt; (Hub.end(1), Hub.start(5)), (0, 0));
    let barred = grid.open(1, request(2, 1, 10), &[hop(1, 0), hop(5, 1)]);
    assert_eq!(rt; barred, Err(at(Refusal::NoTurn, 1)));
    let level = grid.open(1, request(3, 2, 10), &[hop(2, 0), hop(6, 0)]);
    assert_eq!(rt; level, Err(at(Refusal::LaneTooLow, 1)));
    grid.open(1, request(3, 2, 10), &[hop(2, 0), hop(6, 1)])?;
    assert_eq!(rt; grid.link_load(6), Ok(20));
    Ok(())
}

// Links 7 and 8 lie side by side. One of them cannot bear two streams of 60.
#[test]
fn twins(rt: HostRuntime) -> Result<(), Fail> {
    let mut grid = blank(rt.alloc(), 1)?;
    grid.open(0, request(0, 4, 60), &[hop(7, 0)])?;
    let full = grid.open(1, request(0, 4, 60), &[hop(7, 0)]);
    assert_eq!(rt; full, Err(at(Refusal::OverCapacity, 0)));
    grid.open(1, request(0, 4, 60), &[hop(8, 0)])?;
    let mut slots = [0; 20];
    send(&rt, &mut grid, &mut slots, (0, 5), Ok(()));
    send(&rt, &mut grid, &mut slots, (1, 6), Ok(()));
    step(&rt, &mut grid, &mut slots, hop(8, 0), Ok(Step::Out(1, 6)));
    step(&rt, &mut grid, &mut slots, hop(7, 0), Ok(Step::Out(0, 5)));
    Ok(())
}

// The way from 2 to 1 goes through the hub twice: to 4, over the twin that bears less, to 5 and back, with a climb. Two
// items go along it, and come out in order.
#[test]
fn twice_through_the_hub(rt: HostRuntime) -> Result<(), Fail> {
    let mut grid = blank(rt.alloc(), 2)?;
    grid.open(0, request(0, 4, 60), &[hop(7, 0)])?;
    let way = [hop(1, 0), hop(8, 0), hop(9, 0), hop(4, 1), hop(5, 1)];
    seek(
        &rt,
        &mut grid,
        request(2, 1, 10),
        &Total,
        &mut [7; 40],
        &way,
    );
    let mut slots = [0; 40];
    send(&rt, &mut grid, &mut slots, (63, 5), Ok(()));
    send(&rt, &mut grid, &mut slots, (63, 6), Ok(()));
    for lane in &way[..4] {
        step(&rt, &mut grid, &mut slots, *lane, Ok(Step::Moved(63)));
        step(&rt, &mut grid, &mut slots, *lane, Ok(Step::Moved(63)));
    }
    step(&rt, &mut grid, &mut slots, way[4], Ok(Step::Out(63, 5)));
    step(&rt, &mut grid, &mut slots, way[4], Ok(Step::Out(63, 6)));
    Ok(())
}

// With one lane the climb cannot be made, and there is no other way.
#[test]
fn no_way(rt: HostRuntime) -> Result<(), Fail> {
    let mut grid = blank(rt.alloc(), 1)?;
    seek(&rt, &mut grid, request(2, 1, 10), &Total, &mut [7; 20], &[]);
    seek(
        &rt,
        &mut grid,
        request(3, 1, 10),
        &Total,
        &mut [7; 20],
        &[hop(2, 0), hop(5, 0)],
    );
    Ok(())
}

// Link 9 is the last.
#[test]
fn past_the_links(rt: HostRuntime) -> Result<(), Fail> {
    let grid = blank(rt.alloc(), 1)?;
    let layout = grid.layout();
    assert_eq!(rt; (layout.start(9), layout.end(9)), (4, 5));
    assert_eq!(rt; (layout.start(10), layout.end(10)), (255, 255));
    assert_eq!(rt; grid.link_load(9), Ok(0));
    assert_eq!(rt; grid.link_load(10), Err(Refusal::OffGrid));
    Ok(())
}
