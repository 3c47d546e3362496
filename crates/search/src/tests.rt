// The measures at their limits, and one search.
use crate::choice::{Choice, Either};
use crate::find::{find, find_by_table};
use crate::measure::Measure;
use crate::peak::Peak;
use crate::scratch::{check_scratch, marks_needed, values_needed};
use crate::total::Total;
use layouts::mesh::Mesh;
use layouts::turn_rule::TurnRule;
use refusals::refusal::Refusal;
use routes::declined::Declined;
use routes::hop::Hop;
use routes::judge::{Limits, TableLimits};
use routes::route::Route;
use routes::stream::{Request, Stream};
use std::test::Fail;

#[test]
fn sum_is_held(rt: HostRuntime) {
    assert_eq!(rt; Total.start(), 0);
    let sums = [
        (0, 65_535, 65_535),
        (4_294_967_290, 4, 4_294_967_294),
        (4_294_967_290, 5, 4_294_967_295),
        (4_294_967_290, 6, 4_294_967_295),
        (4_294_967_295, 65_535, 4_294_967_295),
    ];
    for (sum, load, extended) in sums {
        assert_eq!(rt; Total.extend(sum, load), extended, "{sum} and {load}");
    }
    for (p, q, is_not_above) in [(1, 2, true), (2, 2, true), (2, 1, false)] {
        assert_eq!(rt; Total.not_above(p, q), is_not_above, "{p} and {q}");
    }
}

#[test]
fn count_is_held(rt: HostRuntime) {
    assert_eq!(rt; Peak.start(), (0, 0));
    let values = [
        ((0, 0), 0, (0, 1)),
        ((7, 3), 6, (7, 3)),
        ((7, 3), 7, (7, 4)),
        ((7, 3), 8, (8, 1)),
        ((7, 65_534), 7, (7, 65_535)),
        ((7, 65_535), 7, (7, 65_535)),
        ((7, 65_535), 8, (8, 1)),
    ];
    for (value, load, extended) in values {
        assert_eq!(rt; Peak.extend(value, load), extended, "{value:?} and {load}");
    }
    let orders = [
        ((1, 5), (2, 1), true),
        ((2, 1), (1, 5), false),
        ((2, 1), (2, 2), true),
        ((2, 2), (2, 2), true),
        ((2, 3), (2, 2), false),
    ];
    for (p, q, is_not_above) in orders {
        assert_eq!(rt; Peak.not_above(p, q), is_not_above, "{p:?} and {q:?}");
    }
}

#[test]
fn choice_of_two(rt: HostRuntime) {
    for (is_second, start) in [(false, Either::First(0)), (true, Either::Second((0, 0)))] {
        let either = Choice {
            first: Total,
            second: Peak,
            is_second,
        };
        assert_eq!(rt; either.start(), start);
        assert_eq!(rt; either.extend(Either::First(7), 7), Either::First(14));
        assert_eq!(rt;
            either.extend(Either::Second((7, 1)), 7),
            Either::Second((7, 2))
        );
        assert!(rt; either.not_above(Either::First(9), Either::First(9)));
        assert!(rt; !either.not_above(Either::First(9), Either::First(8)));
        assert!(rt; either.not_above(Either::First(9), Either::Second((1, 1))));
        assert!(rt; !either.not_above(Either::Second((1, 1)), Either::First(9)));
        assert!(rt; !either.not_above(Either::Second((9, 1)), Either::Second((8, 2))));
    }
}

#[test]
fn scratch_one_too_small(rt: HostRuntime) {
    let few = Err(Refusal::TooFewSlots);
    let scratch = [
        (24, 1, 48, 576, Ok(())),
        (24, 1, 47, 576, few),
        (24, 1, 48, 575, few),
        (256, 4, 2048, 24_576, Ok(())),
        (256, 4, 2047, 24_576, few),
    ];
    assert_eq!(rt;
        (values_needed(256, 4), marks_needed(256, 4)),
        (2048, 24_576)
    );
    for (links, lanes, values, marks, answer) in scratch {
        assert_eq!(rt; check_scratch(links, lanes, values, marks), answer);
    }
}

// On a mesh of 3 × 3 tiles, where a stream of 80 goes from tile 0 east to tile 1.
#[test]
fn finds_a_way_round(rt: HostRuntime) -> Result<(), Fail> {
    let hop = |link, lane| Hop { link, lane };
    let request = |target, demand| Request {
        source: 0,
        target,
        demand,
    };
    let mut streams = [None; 64];
    streams[5] = Some(Stream {
        request: request(1, 80),
        route: Route::new(&[hop(0, 0)])?,
    });
    let mesh = Mesh::new(TurnRule::Xy, 3, 3)?;
    let mut find = |lanes, request, values: &mut [u32]| {
        let limits = Limits {
            lanes,
            capacity: 100,
            streams: &streams,
        };
        find(&mesh, limits, request, &Total, values, &mut [7; 1152])
    };
    let route = find(2, request(4, 30), &mut [7; 96])?;
    assert_eq!(rt; route.hops(), [hop(12, 0), hop(2, 1)].as_slice());
    let declined = [
        (0, 9, 95, Refusal::GridSize),
        (5, 9, 95, Refusal::GridSize),
        (2, 9, 95, Refusal::TooFewSlots),
        (2, 9, 96, Refusal::BadEndpoints),
        (1, 4, 96, Refusal::NoRoute),
    ];
    for (lanes, target, values, refusal) in declined {
        let answer = find(lanes, request(target, 30), &mut [7; 96][..values]);
        assert_eq!(rt; answer.err(), Some(Declined { refusal, hop: None }));
    }
    Ok(())
}

// On one lane there is one route, over link 0, which is past the capacity where stream 5 is open.
#[test]
fn finds_by_tables_of_any_length(rt: HostRuntime) -> Result<(), Fail> {
    let hop = |link, lane| Hop { link, lane };
    let request = |demand| Request {
        source: 0,
        target: 1,
        demand,
    };
    let mut streams = [None; 64];
    streams[5] = Some(Stream {
        request: request(80),
        route: Route::new(&[hop(0, 0)])?,
    });
    let mesh = Mesh::new(TurnRule::Xy, 3, 3)?;
    let find = |streams: &[Option<Stream>]| {
        let limits = TableLimits {
            lanes: 1,
            capacity: 100,
            streams,
        };
        find_by_table(
            &mesh,
            limits,
            request(30),
            &Total,
            &mut [7; 96],
            &mut [7; 1152],
        )
    };
    let none = Some(Declined {
        refusal: Refusal::NoRoute,
        hop: None,
    });
    assert_eq!(rt; find(&streams).err(), none);
    assert_eq!(rt; find(&streams[..6]).err(), none);
    assert_eq!(rt; find(&streams[..5])?.hops(), [hop(0, 0)].as_slice());
    assert_eq!(rt; find(&[])?.hops(), [hop(0, 0)].as_slice());
    Ok(())
}
