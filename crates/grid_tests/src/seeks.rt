// Seeks on a mesh with a capacity of 100, one item to a lane. Where a route is given, it is the only best one.
use crate::tests::{hop, request, send, step, whole};
use grid::grid::Grid;
use grid::step::Step;
use layouts::mesh::Mesh;
use layouts::rules::Rules;
use layouts::turn_rule::TurnRule;
use layouts::ways::Ways;
use refusals::refusal::Refusal;
use routes::hop::Hop;
use routes::stream::Request;
use search::choice::{Choice, Either};
use search::measure::Measure;
use search::peak::Peak;
use search::total::Total;
use std::alloc::Global;
use std::process::Abort;
use std::test::Fail;

// A grid on which each of these links bears a load: that of the stream of its number.
fn loaded(heap: Global, mesh: Mesh, lanes: u16, loads: &[(u16, u16)]) -> Result<Grid<Mesh>, Fail> {
    let mut grid = Grid::blank(heap, mesh, lanes, 1, 100)?;
    for (link, load) in loads {
        let over = request(mesh.start(*link), mesh.end(*link), *load);
        grid.open(*link, over, &[hop(*link, 0)])?;
    }
    Ok(grid)
}

// A seek for stream 63, which has to take these hops; none where there is no route.
pub(crate) fn seek<L: Rules, M: Measure>(
    rt: &impl Abort,
    grid: &mut Grid<L>,
    asked: Request,
    measure: &M,
    values: &mut [M::Value],
    hops: &[Hop],
) {
    let answer = grid.seek(63, asked, measure, values, &mut [7; 3264]);
    let expected = if hops.is_empty() {
        Err(whole(Refusal::NoRoute))
    } else {
        Ok(hops.len())
    };
    assert_eq!(rt; answer, expected, "{asked:?} {hops:?}");
    let mut table = [hop(0, 0); 24];
    let count = grid.route(63, &mut table).unwrap_or(0);
    assert_eq!(rt; table.get(..count), Some(hops));
}

// Such a seek on a grid of its own, of a mesh, a count of lanes and loads.
fn takes_by<M: Measure>(
    rt: &impl Abort,
    heap: Global,
    (mesh, lanes, loads): (Mesh, u16, &[(u16, u16)]),
    asked: Request,
    measure: &M,
    values: &mut [M::Value],
    hops: &[Hop],
) -> Result<(), Fail> {
    let mut grid = loaded(heap, mesh, lanes, loads)?;
    seek(rt, &mut grid, asked, measure, values, hops);
    Ok(())
}

// Seeks by the sum and by the largest load, which take the same hops.
fn takes(
    rt: &impl Abort,
    heap: Global,
    setting: (Mesh, u16, &[(u16, u16)]),
    asked: Request,
    hops: &[Hop],
) -> Result<(), Fail> {
    takes_by(rt, heap, setting, asked, &Total, &mut [7; 272], hops)?;
    takes_by(rt, heap, setting, asked, &Peak, &mut [(7, 7); 272], hops)
}

// From tile 0 to tile 1, next to it: east, and where that link is full, north, east and south.
#[test]
fn full_link(rt: HostRuntime) -> Result<(), Fail> {
    let round = [hop(12, 0), hop(2, 0), hop(19, 0)];
    let cases: [(TurnRule, u16, u16, &[Hop]); 9] = [
        (TurnRule::Xy, 1, 70, &[hop(0, 0)]),
        (TurnRule::Xy, 1, 71, &[]),
        (TurnRule::Xy, 2, 71, &[hop(12, 0), hop(2, 1), hop(19, 1)]),
        (TurnRule::WestFirst, 1, 70, &[hop(0, 0)]),
        (TurnRule::WestFirst, 1, 71, &round),
        (TurnRule::NorthLast, 1, 71, &[]),
        (
            TurnRule::NorthLast,
            2,
            71,
            &[hop(12, 0), hop(2, 1), hop(19, 1)],
        ),
        (TurnRule::NegativeFirst, 1, 71, &[]),
        (
            TurnRule::NegativeFirst,
            2,
            71,
            &[hop(12, 0), hop(2, 0), hop(19, 1)],
        ),
    ];
    for (rule, lanes, load, hops) in cases {
        let mesh = Mesh::new(rule, 3, 3)?;
        takes(
            &rt,
            rt.alloc(),
            (mesh, lanes, &[(0, load)]),
            request(0, 1, 30),
            hops,
        )?;
    }
    Ok(())
}

// From corner to corner. The cheaper a route is here, the more climbs it has.
#[test]
fn lanes_decide(rt: HostRuntime) -> Result<(), Fail> {
    let mesh = Mesh::new(TurnRule::Xy, 3, 3)?;
    let loads = [(0, 30), (15, 20), (3, 10)];
    let cases: [(u16, [Hop; 4]); 3] = [
        (1, [hop(0, 0), hop(1, 0), hop(14, 0), hop(17, 0)]),
        (2, [hop(12, 0), hop(2, 1), hop(3, 1), hop(17, 1)]),
        (3, [hop(12, 0), hop(2, 1), hop(16, 1), hop(5, 2)]),
    ];
    for (lanes, hops) in cases {
        takes(
            &rt,
            rt.alloc(),
            (mesh, lanes, &loads),
            request(0, 8, 10),
            &hops,
        )?;
    }
    Ok(())
}

// On a mesh of 3 × 4 tiles all links north are full but those of one way, which turns east and west in turn, and climbs at each
// end of a row.
#[test]
fn winding_way(rt: HostRuntime) -> Result<(), Fail> {
    let mesh = Mesh::new(TurnRule::Xy, 3, 4)?;
    let loads = [
        (16, 100),
        (17, 100),
        (20, 100),
        (21, 100),
        (22, 100),
        (23, 100),
    ];
    let way = [
        hop(0, 0),
        hop(1, 0),
        hop(18, 0),
        hop(11, 1),
        hop(10, 1),
        hop(19, 1),
        hop(4, 2),
        hop(5, 2),
        hop(24, 2),
        hop(15, 3),
        hop(14, 3),
    ];
    let cases = [
        (1, 5, 3),
        (1, 4, 0),
        (2, 6, 6),
        (2, 7, 0),
        (3, 11, 9),
        (3, 10, 0),
        (4, 10, 10),
        (4, 9, 11),
    ];
    for (lanes, target, count) in cases {
        let hops = &way[..count];
        takes(
            &rt,
            rt.alloc(),
            (mesh, lanes, &loads),
            request(0, target, 1),
            hops,
        )?;
    }
    Ok(())
}

// Such a way on the largest mesh: 24 hops to tile 31, and 25 to tile 30, for which the lanes would do.
#[test]
fn farthest(rt: HostRuntime) -> Result<(), Fail> {
    let mesh = Mesh::new(TurnRule::Xy, 8, 8)?;
    let mut grid = Grid::blank(rt.alloc(), mesh, 4, 1, 100)?;
    for x in 1..7 {
        let north = [hop(112 + x, 0), hop(120 + x, 0), hop(128 + x, 0)];
        grid.open(x, request(x, 24 + x, 100), &north)?;
    }
    for (stream, source, link) in [(0, 0, 112), (7, 15, 127), (8, 16, 128)] {
        grid.open(stream, request(source, source + 8, 100), &[hop(link, 0)])?;
    }
    let mut values = [7; 1792];
    let mut marks = [7; 21_504];
    let mut seek = |stream, target| {
        grid.seek(
            stream,
            request(0, target, 1),
            &Total,
            &mut values,
            &mut marks,
        )
    };
    assert_eq!(rt; seek(9, 30), Err(whole(Refusal::NoRoute)));
    assert_eq!(rt; seek(9, 31), Ok(24));
    Ok(())
}

// Ways of as many hops each under negative-first, of which the sum of the loads and the largest load take another.
#[test]
fn measures_decide(rt: HostRuntime) -> Result<(), Fail> {
    let mesh = Mesh::new(TurnRule::NegativeFirst, 3, 3)?;
    let cases: [(&[(u16, u16)], u16, &[Hop], &[Hop]); 2] = [
        (
            &[(0, 40), (12, 30), (2, 30)],
            4,
            &[hop(0, 0), hop(13, 0)],
            &[hop(12, 0), hop(2, 0)],
        ),
        // 40, 40 and 10 by east, and 40, 39 and 39 by north
        (
            &[(0, 30), (1, 30), (13, 95), (12, 30), (2, 29), (3, 29)],
            5,
            &[hop(0, 0), hop(1, 0), hop(14, 0)],
            &[hop(12, 0), hop(2, 0), hop(3, 0)],
        ),
    ];
    for (loads, target, by_sum, by_largest) in cases {
        let setting = (mesh, 1, loads);
        let asked = request(0, target, 10);
        takes_by(
            &rt,
            rt.alloc(),
            setting,
            asked,
            &Total,
            &mut [7; 48],
            by_sum,
        )?;
        takes_by(
            &rt,
            rt.alloc(),
            setting,
            asked,
            &Peak,
            &mut [(7, 7); 48],
            by_largest,
        )?;
        for (is_second, hops) in [(false, by_sum), (true, by_largest)] {
            let either = Choice {
                first: Total,
                second: Peak,
                is_second,
            };
            takes_by(
                &rt,
                rt.alloc(),
                setting,
                asked,
                &either,
                &mut [Either::First(7); 48],
                hops,
            )?;
        }
    }
    Ok(())
}

// A stream of 80 goes east and north to tile 4, and another of 30 cannot.
#[test]
fn beside_a_large_stream(rt: HostRuntime) -> Result<(), Fail> {
    let mesh = Mesh::new(TurnRule::Xy, 3, 3)?;
    let cases: [(u16, &[Hop]); 2] = [(1, &[]), (2, &[hop(12, 0), hop(2, 1)])];
    for (lanes, hops) in cases {
        let mut grid = Grid::blank(rt.alloc(), mesh, lanes, 1, 100)?;
        grid.open(5, request(0, 4, 80), &[hop(0, 0), hop(13, 0)])?;
        seek(
            &rt,
            &mut grid,
            request(0, 4, 30),
            &Total,
            &mut [7; 96],
            hops,
        );
    }
    Ok(())
}

// That a seek with so much scratch is declined, and leaves stream 5 and the load of its link, and stream 6 closed.
fn declines(
    rt: &impl Abort,
    grid: &mut Grid<Mesh>,
    (values, marks): (&mut [u32], &mut [u16]),
    (stream, asked): (u16, Request),
    refusal: Refusal,
) {
    let answer = grid.seek(stream, asked, &Total, values, marks);
    assert_eq!(rt; answer, Err(whole(refusal)));
    assert_eq!(rt; grid.stream(5), Ok(request(7, 8, 80)));
    assert_eq!(rt; grid.stream(6), Err(Refusal::NotOpen));
    assert_eq!(rt; grid.link_load(5), Ok(80));
}

// Each fault is told ahead of the later ones, which the same call has too. Stream 5 loads link 5.
#[test]
fn seek_refused(rt: HostRuntime) -> Result<(), Fail> {
    let mesh = Mesh::new(TurnRule::Xy, 3, 3)?;
    let mut grid = loaded(rt.alloc(), mesh, 1, &[(5, 80)])?;
    let none = (64, request(9, 9, 0));
    let few = Refusal::TooFewSlots;
    declines(&rt, &mut grid, (&mut [7; 47], &mut [7; 576]), none, few);
    declines(&rt, &mut grid, (&mut [7; 48], &mut [7; 575]), none, few);
    let faults = [
        (none, Refusal::NoSuchStream),
        ((5, request(9, 9, 0)), Refusal::AlreadyOpen),
        ((6, request(9, 8, 0)), Refusal::BadEndpoints),
        ((6, request(7, 9, 0)), Refusal::BadEndpoints),
        ((6, request(7, 7, 0)), Refusal::BadEndpoints),
        ((6, request(7, 8, 0)), Refusal::ZeroAmount),
        ((6, request(7, 8, 21)), Refusal::NoRoute),
    ];
    for (asked, refusal) in faults {
        declines(
            &rt,
            &mut grid,
            (&mut [7; 48], &mut [7; 576]),
            asked,
            refusal,
        );
    }
    let answer = grid.seek(6, request(7, 8, 20), &Total, &mut [7; 48], &mut [7; 576]);
    assert_eq!(rt; answer, Ok(1));
    Ok(())
}

// The stream that was sought loads its links, carries items and is closed like any other.
#[test]
fn sought_stream_is_open(rt: HostRuntime) -> Result<(), Fail> {
    let mesh = Mesh::new(TurnRule::Xy, 3, 3)?;
    let mut grid = loaded(rt.alloc(), mesh, 2, &[(0, 71), (2, 60)])?;
    let way = [hop(12, 0), hop(2, 1), hop(19, 1)];
    let asked = request(0, 1, 30);
    seek(&rt, &mut grid, asked, &Peak, &mut [(7, 7); 96], &way);
    assert_eq!(rt; grid.stream(63), Ok(asked));
    for (link, load) in [(12, 30), (2, 90), (19, 30), (0, 71), (3, 0)] {
        assert_eq!(rt; grid.link_load(link), Ok(load));
    }
    let mut slots = [0; 48];
    send(&rt, &mut grid, &mut slots, (63, 9), Ok(()));
    step(&rt, &mut grid, &mut slots, way[0], Ok(Step::Moved(63)));
    step(&rt, &mut grid, &mut slots, way[1], Ok(Step::Moved(63)));
    step(&rt, &mut grid, &mut slots, way[2], Ok(Step::Out(63, 9)));
    assert_eq!(rt; grid.close(63), Ok(()));
    Ok(())
}
