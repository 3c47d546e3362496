// Sweeps and drains of a grid on a mesh of 2 × 2 or 3 × 3 tiles, with answers worked out by hand.
use crate::tests::{EAST_NORTH, hop, opened, request, send};
use grid::drain::Drain;
use grid::grid::Grid;
use grid::sweep::Sweep;
use lanes::strip::Strip;
use layouts::mesh::Mesh;
use refusals::refusal::Refusal;
use routes::hop::Hop;
use routes::stream::Request;
use std::alloc::Global;
use std::fmt::Debug;
use std::process::Abort;
use std::test::Fail;

// A sweep, with the counts that it has to tell, and what has to come out. The tables hold stream 99 and a blank item.
fn sweep<T: Copy + Debug + PartialEq>(
    rt: &impl Abort,
    grid: &mut Grid<Mesh>,
    slots: &mut [T],
    (items, blank): (&mut [T], T),
    steps: usize,
    out: &[(u16, T)],
) {
    let mut streams = [99; 72];
    let told = Sweep {
        steps,
        items: out.len(),
    };
    assert_eq!(rt; grid.sweep(slots, &mut streams, items), Ok(told));
    for (k, (stream, item)) in out.iter().enumerate() {
        assert_eq!(rt; streams.get(k), Some(stream), "entry {k}");
        assert_eq!(rt; items.get(k), Some(item), "entry {k}");
    }
    assert_eq!(rt; streams.get(out.len()), Some(&99));
    assert_eq!(rt; items.get(out.len()), Some(&blank));
}

// East over links 0 and 1 and north over links 14 and 17 of a mesh of 3 × 3 tiles: each hop has a higher number than the one before,
// so an item goes all the way in one sweep.
#[test]
fn goes_far_where_links_rise(rt: HostRuntime) -> Result<(), Fail> {
    let hops = [hop(0, 0), hop(1, 0), hop(14, 1), hop(17, 2)];
    let mut grid = opened(rt.alloc(), 3, 1, &[(7, request(0, 8, 10), &hops)])?;
    let mut slots = [0; 72];
    send(&rt, &mut grid, &mut slots, (7, 1000), Ok(()));
    sweep(
        &rt,
        &mut grid,
        &mut slots,
        (&mut [0; 72], 0),
        4,
        &[(7, 1000)],
    );
    sweep(&rt, &mut grid, &mut slots, (&mut [0; 72], 0), 0, &[]);
    Ok(())
}

// West over links 7 and 6: the second comes before the first in a sweep, so an item goes one hop in each.
#[test]
fn goes_one_hop_where_links_fall(rt: HostRuntime) -> Result<(), Fail> {
    let hops = [hop(7, 0), hop(6, 0)];
    let mut grid = opened(rt.alloc(), 3, 1, &[(7, request(2, 0, 10), &hops)])?;
    let mut slots = [0; 72];
    send(&rt, &mut grid, &mut slots, (7, 1000), Ok(()));
    sweep(&rt, &mut grid, &mut slots, (&mut [0; 72], 0), 1, &[]);
    sweep(
        &rt,
        &mut grid,
        &mut slots,
        (&mut [0; 72], 0),
        1,
        &[(7, 1000)],
    );
    sweep(&rt, &mut grid, &mut slots, (&mut [0; 72], 0), 0, &[]);
    Ok(())
}

// Three streams on the three lanes of link 0: they come out in the order of the lanes, whatever their numbers are.
#[test]
fn lanes_rise_within_a_link(rt: HostRuntime) -> Result<(), Fail> {
    let streams: [(u16, Request, &[Hop]); 3] = [
        (1, request(0, 1, 10), &[hop(0, 2)]),
        (2, request(0, 1, 10), &[hop(0, 1)]),
        (3, request(0, 1, 10), &[hop(0, 0)]),
    ];
    let mut grid = opened(rt.alloc(), 2, 2, &streams)?;
    let mut slots = [0; 48];
    for item in [(1, 10), (2, 20), (3, 30), (2, 21)] {
        send(&rt, &mut grid, &mut slots, item, Ok(()));
    }
    let first = [(3, 30), (2, 20), (1, 10)];
    sweep(&rt, &mut grid, &mut slots, (&mut [0; 72], 0), 3, &first);
    sweep(&rt, &mut grid, &mut slots, (&mut [0; 72], 0), 1, &[(2, 21)]);
    Ok(())
}

// A strip of a row of fragment 1, seen in band 2.
fn strip(row: u16) -> Strip {
    Strip {
        fragment: 1,
        band: 2,
        row,
    }
}

// One item to a lane, and both lanes of a route are full: the item behind is held in the first sweep, and goes two hops in the
// second. The items are strips.
#[test]
fn full_lanes(rt: HostRuntime) -> Result<(), Fail> {
    let mut grid = opened(rt.alloc(), 2, 1, &[(7, request(0, 3, 10), &EAST_NORTH)])?;
    let mut slots = [strip(0); 24];
    send(&rt, &mut grid, &mut slots, (7, strip(1)), Ok(()));
    assert_eq!(rt; grid.step(&mut slots, hop(0, 0)).is_ok(), true);
    send(&rt, &mut grid, &mut slots, (7, strip(2)), Ok(()));
    sweep(
        &rt,
        &mut grid,
        &mut slots,
        (&mut [strip(0); 72], strip(0)),
        1,
        &[(7, strip(1))],
    );
    sweep(
        &rt,
        &mut grid,
        &mut slots,
        (&mut [strip(0); 72], strip(0)),
        2,
        &[(7, strip(2))],
    );
    Ok(())
}

// Lamp words, five in all, wait on the first hop of three streams; they have nine hops ahead.
fn five_sent(rt: &impl Abort, heap: Global, slots: &mut [u32]) -> Result<Grid<Mesh>, Fail> {
    let streams: [(u16, Request, &[Hop]); 3] = [
        (3, request(0, 3, 10), &EAST_NORTH),
        (63, request(0, 3, 20), &EAST_NORTH),
        (1, request(0, 1, 30), &[hop(0, 0)]),
    ];
    let mut grid = opened(heap, 2, 8, &streams)?;
    for item in [(3, 10), (63, 20), (1, 30), (63, 21), (3, 11)] {
        send(rt, &mut grid, slots, item, Ok(()));
    }
    Ok(grid)
}

// A sweep asks for 24 entries here, an entry for each lane, and a drain for 5 more, one for each item.
#[test]
fn declined_one_short(rt: HostRuntime) -> Result<(), Fail> {
    let mut slots = [0; 192];
    let mut grid = five_sent(&rt, rt.alloc(), &mut slots)?;
    let before = slots;
    let few = Some(Refusal::TooFewSlots);
    let (mut streams, mut items) = ([99; 29], [77; 29]);
    for (slot_count, stream_count, item_count) in [(191, 24, 24), (192, 23, 24), (192, 24, 23)] {
        let told = grid.sweep(
            &mut slots[..slot_count],
            &mut streams[..stream_count],
            &mut items[..item_count],
        );
        assert_eq!(rt; told.err(), few);
        let told = grid.drain(
            &mut slots[..slot_count],
            &mut streams[..stream_count + 5],
            &mut items[..item_count + 5],
        );
        assert_eq!(rt; told.err(), few);
        assert_eq!(rt; (slots, streams, items), (before, [99; 29], [77; 29]));
        assert_eq!(rt; grid.items(), 5);
    }
    Ok(())
}

#[test]
fn drains(rt: HostRuntime) -> Result<(), Fail> {
    let mut slots = [0; 192];
    let mut grid = five_sent(&rt, rt.alloc(), &mut slots)?;
    let (mut streams, mut items) = ([99; 30], [77; 30]);
    let told = grid.drain(&mut slots, &mut streams, &mut items);
    let wanted = Drain {
        sweeps: 5,
        steps: 9,
        items: 5,
    };
    assert_eq!(rt; told, Ok(wanted));
    assert_eq!(rt; &streams[..6], [3, 63, 1, 63, 3, 99].as_slice());
    assert_eq!(rt; &items[..6], [10, 20, 30, 21, 11, 77].as_slice());
    assert_eq!(rt; grid.items(), 0);
    let told = grid.drain(&mut slots, &mut [0; 24], &mut [0; 24]);
    assert_eq!(rt; told.map(|drain| drain.sweeps), Ok(0));
    Ok(())
}
