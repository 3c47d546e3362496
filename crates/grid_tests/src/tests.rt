// Runs of a grid on a mesh of 2 × 2 or 3 × 3 tiles under the rule XY, with answers worked out by hand.
use grid::grid::Grid;
use grid::make::MakeError;
use grid::step::Step;
use lanes::strip::Strip;
use layouts::mesh::Mesh;
use layouts::rules::Rules;
use layouts::turn_rule::TurnRule;
use layouts::ways::Ways;
use refusals::refusal::Refusal;
use routes::declined::Declined;
use routes::hop::Hop;
use routes::stream::Request;
use std::alloc::Global;
use std::fmt::Debug;
use std::process::Abort;
use std::test::Fail;

pub(crate) fn hop(link: u16, lane: u8) -> Hop {
    Hop { link, lane }
}

pub(crate) fn request(source: u16, target: u16, demand: u16) -> Request {
    Request {
        source,
        target,
        demand,
    }
}

// On the mesh of 2 × 2 tiles: from tile 0 east to tile 1 and north to tile 3.
pub(crate) const EAST_NORTH: [Hop; 2] = [Hop { link: 0, lane: 0 }, Hop { link: 5, lane: 0 }];

// A grid on a mesh of so many tiles each way, with 3 lanes and a capacity of 100, on which these streams are open.
pub(crate) fn opened(
    heap: Global,
    tiles: u16,
    depth: u16,
    streams: &[(u16, Request, &[Hop])],
) -> Result<Grid<Mesh>, Fail> {
    let mesh = Mesh::new(TurnRule::Xy, tiles, tiles)?;
    let mut grid = Grid::blank(heap, mesh, 3, depth, 100)?;
    for (stream, request, hops) in streams {
        grid.open(*stream, *request, hops)?;
    }
    Ok(grid)
}

// A send and a step, with what they have to answer. A test is proved faster where its calls are made in such functions.
pub(crate) fn send<L: Rules, T: Copy>(
    rt: &impl Abort,
    grid: &mut Grid<L>,
    slots: &mut [T],
    (stream, item): (u16, T),
    answer: Result<(), Refusal>,
) {
    assert_eq!(rt; grid.send(slots, stream, item), answer, "stream {stream}");
}

pub(crate) fn step<L: Rules, T: Copy + Debug + PartialEq>(
    rt: &impl Abort,
    grid: &mut Grid<L>,
    slots: &mut [T],
    lane: Hop,
    answer: Result<Step<T>, Refusal>,
) {
    assert_eq!(rt; grid.step(slots, lane), answer, "{lane:?}");
}

// One stream on lane 1 of link 3, whose first slot is given. It goes round twice with one item at a time; then the lane
// fills, and an item goes out before the next comes in.
fn goes_round(rt: &impl Abort, heap: Global, depth: u16, first: u16) -> Result<(), Fail> {
    let lane = hop(3, 1);
    let mut grid = opened(heap, 2, depth, &[(5, request(3, 2, 1), &[lane])])?;
    let mut slots = [0; 192];
    let mut expected = [0; 192];
    for turn in 1..6 {
        for place in 0..depth {
            let item = 1000 * turn + u32::from(place);
            if turn > 3 {
                let front = Step::Out(5, item - 1000);
                step(rt, &mut grid, &mut slots, lane, Ok(front));
            }
            send(rt, &mut grid, &mut slots, (5, item), Ok(()));
            if let Some(slot) = expected.get_mut(usize::from(first) + usize::from(place)) {
                *slot = item;
            }
            assert_eq!(rt; slots, expected);
            if turn < 3 {
                step(rt, &mut grid, &mut slots, lane, Ok(Step::Out(5, item)));
            }
        }
    }
    Ok(())
}

// Lane 1 of link 3 is lane 3 × 3 + 1 of all, and its first slot is 10 × depth.
#[test]
fn lanes_go_round(rt: HostRuntime) -> Result<(), Fail> {
    let heap = rt.alloc();
    goes_round(&rt, heap, 1, 10)?;
    goes_round(&rt, heap, 3, 30)?;
    goes_round(&rt, heap, 8, 80)
}

// Streams 3 and 63 go 0, 1, 3, and stream 1 goes only to tile 1.
#[test]
fn streams_share_lanes(rt: HostRuntime) -> Result<(), Fail> {
    let streams: [(u16, Request, &[Hop]); 3] = [
        (3, request(0, 3, 10), &EAST_NORTH),
        (63, request(0, 3, 20), &EAST_NORTH),
        (1, request(0, 1, 30), &[hop(0, 0)]),
    ];
    let mut grid = opened(rt.alloc(), 2, 8, &streams)?;
    let mut slots = [0; 192];
    for item in [(3, 10), (63, 20), (1, 30), (63, 21), (3, 11)] {
        send(&rt, &mut grid, &mut slots, item, Ok(()));
    }
    let first = [
        Step::Moved(3),
        Step::Moved(63),
        Step::Out(1, 30),
        Step::Moved(63),
        Step::Moved(3),
    ];
    for answer in first {
        step(&rt, &mut grid, &mut slots, hop(0, 0), Ok(answer));
    }
    for (stream, item) in [(3, 10), (63, 20), (63, 21), (3, 11)] {
        let answer = Ok(Step::Out(stream, item));
        step(&rt, &mut grid, &mut slots, hop(5, 0), answer);
    }
    Ok(())
}

// A stream goes 0, 1, 3 with one item to a lane.
#[test]
fn held_until_there_is_room(rt: HostRuntime) -> Result<(), Fail> {
    let mut grid = opened(rt.alloc(), 2, 1, &[(7, request(0, 3, 10), &EAST_NORTH)])?;
    let mut slots = [0; 24];
    send(&rt, &mut grid, &mut slots, (7, 1), Ok(()));
    step(&rt, &mut grid, &mut slots, hop(0, 0), Ok(Step::Moved(7)));
    send(&rt, &mut grid, &mut slots, (7, 2), Ok(()));
    let before = slots;
    step(&rt, &mut grid, &mut slots, hop(0, 0), Err(Refusal::Held));
    assert_eq!(rt; slots, before);
    assert_eq!(rt; grid.count(hop(0, 0)), Ok(1));
    step(&rt, &mut grid, &mut slots, hop(5, 0), Ok(Step::Out(7, 1)));
    step(&rt, &mut grid, &mut slots, hop(0, 0), Ok(Step::Moved(7)));
    step(&rt, &mut grid, &mut slots, hop(5, 0), Ok(Step::Out(7, 2)));
    Ok(())
}

// A stream goes 0, 1, 2, 5 and climbs at the end, and is closed once its item has left its last hop.
#[test]
fn closes_once_items_are_out(rt: HostRuntime) -> Result<(), Fail> {
    let route = [hop(0, 0), hop(1, 0), hop(14, 1)];
    let mut grid = opened(rt.alloc(), 3, 1, &[(40, request(0, 5, 10), &route)])?;
    let mut slots = [0; 72];
    send(&rt, &mut grid, &mut slots, (40, 1), Ok(()));
    for hop in route {
        assert_eq!(rt; grid.close(40), Err(Refusal::ItemsOnGrid));
        assert_eq!(rt; grid.count(hop), Ok(1));
        grid.step(&mut slots, hop)?;
    }
    assert_eq!(rt; grid.close(40), Ok(()));
    assert_eq!(rt; grid.close(40), Err(Refusal::NotOpen));
    assert_eq!(rt; grid.open(40, request(0, 5, 10), &route), Ok(()));
    Ok(())
}

// Streams 1 and 2 fill lane 0 of links 0 and 5, so that, slots enough, each call is declined by another refusal.
#[test]
fn slots_one_too_few(rt: HostRuntime) -> Result<(), Fail> {
    let streams: [(u16, Request, &[Hop]); 2] = [
        (1, request(0, 3, 10), &EAST_NORTH),
        (2, request(1, 3, 10), &[hop(5, 0)]),
    ];
    let mut grid = opened(rt.alloc(), 2, 1, &streams)?;
    let mut slots = [0; 24];
    send(&rt, &mut grid, &mut slots, (1, 1), Ok(()));
    send(&rt, &mut grid, &mut slots, (2, 2), Ok(()));
    let before = slots;
    let few = Refusal::TooFewSlots;
    let sends = [
        (64, Refusal::NoSuchStream),
        (0, Refusal::NotOpen),
        (1, Refusal::LaneFull),
    ];
    for (stream, refusal) in sends {
        send(&rt, &mut grid, &mut slots[..23], (stream, 3), Err(few));
        send(&rt, &mut grid, &mut slots, (stream, 3), Err(refusal));
    }
    let steps = [
        (hop(8, 0), Refusal::OffGrid),
        (hop(0, 3), Refusal::OffGrid),
        (hop(0, 1), Refusal::LaneEmpty),
        (hop(0, 0), Refusal::Held),
    ];
    for (lane, refusal) in steps {
        step(&rt, &mut grid, &mut slots[..23], lane, Err(few));
        step(&rt, &mut grid, &mut slots, lane, Err(refusal));
    }
    step(&rt, &mut grid, &mut slots[..23], hop(5, 0), Err(few));
    assert_eq!(rt; slots, before);
    assert_eq!(rt; grid.items(), 2);
    step(&rt, &mut grid, &mut slots, hop(5, 0), Ok(Step::Out(2, 2)));
    Ok(())
}

// Items that are sent one after the other along a route of two hops all come out.
fn carries<T: Copy + Debug + PartialEq>(
    rt: &impl Abort,
    heap: Global,
    slots: &mut [T],
    items: [T; 3],
) -> Result<(), Fail> {
    let mut grid = opened(heap, 2, 4, &[(9, request(0, 3, 10), &EAST_NORTH)])?;
    for item in items {
        send(rt, &mut grid, slots, (9, item), Ok(()));
    }
    for item in items {
        step(rt, &mut grid, slots, hop(0, 0), Ok(Step::Moved(9)));
        step(rt, &mut grid, slots, hop(5, 0), Ok(Step::Out(9, item)));
    }
    assert_eq!(rt; grid.items(), 0);
    Ok(())
}

#[test]
fn carries_strips_and_words(rt: HostRuntime) -> Result<(), Fail> {
    let strip = |row| Strip {
        fragment: 70_000,
        band: 11,
        row,
    };
    carries(
        &rt,
        rt.alloc(),
        &mut [strip(9); 96],
        [strip(0), strip(1), strip(2)],
    )?;
    carries(&rt, rt.alloc(), &mut [0u32; 96], [1, 0, 4_000_000_000])
}

#[test]
fn blank_refused(rt: HostRuntime) -> Result<(), Fail> {
    let mesh = Mesh::new(TurnRule::Xy, 2, 2)?;
    let declined = [
        (0, 1, 1, Refusal::GridSize),
        (5, 1, 1, Refusal::GridSize),
        (1, 0, 1, Refusal::GridSize),
        (1, 9, 0, Refusal::GridSize),
        (1, 1, 0, Refusal::ZeroAmount),
    ];
    for (lanes, depth, capacity, refusal) in declined {
        let grid = Grid::<Mesh>::blank(rt.alloc(), mesh, lanes, depth, capacity);
        assert_eq!(rt; grid.err(), Some(MakeError::Refused(refusal)));
    }
    Ok(())
}

// A mesh of 3 × 3 tiles where stream 5 loads link 0 by 80.
fn loaded(heap: Global) -> Result<Grid<Mesh>, Fail> {
    opened(heap, 3, 1, &[(5, request(0, 1, 80), &[hop(0, 0)])])
}

pub(crate) fn whole(refusal: Refusal) -> Declined {
    Declined { refusal, hop: None }
}

pub(crate) fn at(refusal: Refusal, hop: usize) -> Declined {
    Declined {
        refusal,
        hop: Some(hop),
    }
}

// The route goes from tile 0 to tile 4. The fields have one fault, and more where the number is declined ahead of them.
#[test]
fn open_refused_by_fields(rt: HostRuntime) -> Result<(), Fail> {
    let mut grid = loaded(rt.alloc())?;
    let route = [hop(12, 0), hop(2, 1)];
    let faults = [
        (64, request(9, 9, 0), whole(Refusal::NoSuchStream)),
        (5, request(9, 9, 0), whole(Refusal::AlreadyOpen)),
        (6, request(9, 4, 30), whole(Refusal::BadEndpoints)),
        (6, request(0, 4, 0), whole(Refusal::ZeroAmount)),
        (6, request(1, 4, 30), at(Refusal::WrongStart, 0)),
        (6, request(0, 5, 30), at(Refusal::WrongEnd, 1)),
    ];
    for (stream, request, declined) in faults {
        assert_eq!(rt; grid.open(stream, request, &route), Err(declined));
    }
    assert_eq!(rt; grid.stream(6), Err(Refusal::NotOpen));
    assert_eq!(rt; grid.open(6, request(0, 4, 30), &route), Ok(()));
    Ok(())
}

// One fault in each route.
#[test]
fn open_refused_by_hops(rt: HostRuntime) -> Result<(), Fail> {
    let mut grid = loaded(rt.alloc())?;
    let round = [hop(2, 0), hop(16, 0), hop(10, 1), hop(21, 1), hop(2, 2)];
    let faults: [(Request, &[Hop], Declined); 6] = [
        (request(0, 4, 30), &[], whole(Refusal::HopCount)),
        (
            request(0, 4, 30),
            &[hop(12, 0), hop(2, 3)],
            at(Refusal::OffGrid, 1),
        ),
        (
            request(0, 5, 30),
            &[hop(12, 0), hop(3, 1)],
            at(Refusal::NoTurn, 1),
        ),
        (
            request(0, 4, 30),
            &[hop(12, 0), hop(2, 0)],
            at(Refusal::LaneTooLow, 1),
        ),
        (request(3, 4, 30), &round, at(Refusal::RepeatedLink, 4)),
        (
            request(3, 1, 21),
            &[hop(18, 0), hop(0, 1)],
            at(Refusal::OverCapacity, 1),
        ),
    ];
    for (request, hops, declined) in faults {
        assert_eq!(rt; grid.open(6, request, hops), Err(declined));
    }
    assert_eq!(rt; grid.stream(6), Err(Refusal::NotOpen));
    assert_eq!(rt;
        grid.open(6, request(3, 1, 20), &[hop(18, 0), hop(0, 1)]),
        Ok(())
    );
    Ok(())
}

#[test]
fn numbers_that_are_not_there(rt: HostRuntime) -> Result<(), Fail> {
    let mut grid = opened(rt.alloc(), 2, 1, &[])?;
    let mut table = [hop(0, 0); 24];
    for (stream, refusal) in [(63, Refusal::NotOpen), (64, Refusal::NoSuchStream)] {
        assert_eq!(rt; grid.close(stream), Err(refusal));
        assert_eq!(rt; grid.stream(stream), Err(refusal));
        assert_eq!(rt; grid.route(stream, &mut table), Err(refusal));
    }
    assert_eq!(rt; grid.link_load(8), Err(Refusal::OffGrid));
    assert_eq!(rt; grid.count(hop(8, 0)), Err(Refusal::OffGrid));
    assert_eq!(rt; grid.count(hop(0, 3)), Err(Refusal::OffGrid));
    Ok(())
}

// Streams 1 and 63 load link 2, and 1 also link 12.
#[test]
fn questions(rt: HostRuntime) -> Result<(), Fail> {
    let streams: [(u16, Request, &[Hop]); 2] = [
        (1, request(0, 4, 30), &[hop(12, 0), hop(2, 1)]),
        (63, request(3, 4, 70), &[hop(2, 0)]),
    ];
    let grid = opened(rt.alloc(), 3, 2, &streams)?;
    for (link, load) in [(2, 100), (12, 30), (0, 0)] {
        assert_eq!(rt; grid.link_load(link), Ok(load));
    }
    let mut table = [hop(99, 9); 24];
    let mut expected = [hop(99, 9); 24];
    expected[0] = hop(12, 0);
    expected[1] = hop(2, 1);
    assert_eq!(rt; grid.route(1, &mut table), Ok(2));
    assert_eq!(rt; grid.route(2, &mut table), Err(Refusal::NotOpen));
    assert_eq!(rt; table, expected);
    assert_eq!(rt; grid.stream(63), Ok(request(3, 4, 70)));
    assert_eq!(rt; grid.layout().tiles(), 9);
    assert_eq!(rt; grid.size().slots(), 144);
    Ok(())
}
