// Routes on a 3 × 3 mesh under the rule XY, with three lanes and a capacity of 100, where link 0 bears 80 already.
use crate::declined::Declined;
use crate::hop::Hop;
use crate::judge::{Limits, TableLimits, judge, judge_by_table};
use crate::load::{link_load, link_load_by_table};
use crate::route::Route;
use crate::stream::{Request, Stream};
use layouts::mesh::Mesh;
use layouts::turn_rule::TurnRule;
use refusals::refusal::Refusal;
use std::alloc::Global;
use std::test::Fail;

// The judgement of a stream (source, target, demand) on a route (links and lanes).
fn judged(
    heap: Global,
    fields: (u16, u16, u16),
    links: &[(u16, u8)],
) -> Result<Option<Declined>, Fail> {
    let mesh = Mesh::new(TurnRule::Xy, 3, 3)?;
    let hops: Vec<Hop> = links
        .iter()
        .map(|(link, lane)| Hop {
            link: *link,
            lane: *lane,
        })
        .collect(heap)?;
    let (source, target, demand) = fields;
    let mut streams = [None; 64];
    streams[5] = Some(Stream {
        request: Request {
            source: 0,
            target: 1,
            demand: 80,
        },
        route: Route::new(&[Hop { link: 0, lane: 0 }])?,
    });
    let limits = Limits {
        lanes: 3,
        capacity: 100,
        streams: &streams,
    };
    Ok(judge(
        &mesh,
        limits,
        Request {
            source,
            target,
            demand,
        },
        hops.as_slice(),
    )
    .err())
}

// The two ways to be declined, written out as answers are compared with them.
fn whole(refusal: Refusal) -> Option<Declined> {
    Some(Declined { refusal, hop: None })
}

fn at(refusal: Refusal, hop: usize) -> Option<Declined> {
    Some(Declined {
        refusal,
        hop: Some(hop),
    })
}

// One fault in each route.
#[test]
fn each_refusal(rt: HostRuntime) -> Result<(), Fail> {
    let heap = rt.alloc();
    assert_eq!(rt; judged(heap, (0, 4, 30), &[(12, 0), (2, 1)])?, None);
    assert_eq!(rt; judged(heap, (0, 1, 20), &[(0, 0)])?, None);
    assert_eq!(rt;
        judged(heap, (9, 4, 30), &[(12, 0), (2, 1)])?,
        whole(Refusal::BadEndpoints)
    );
    assert_eq!(rt;
        judged(heap, (0, 4, 0), &[(12, 0), (2, 1)])?,
        whole(Refusal::ZeroAmount)
    );
    assert_eq!(rt; judged(heap, (0, 4, 30), &[])?, whole(Refusal::HopCount));
    assert_eq!(rt;
        judged(heap, (0, 4, 30), &[(12, 0), (2, 3)])?,
        at(Refusal::OffGrid, 1)
    );
    assert_eq!(rt;
        judged(heap, (1, 4, 30), &[(12, 0), (2, 1)])?,
        at(Refusal::WrongStart, 0)
    );
    assert_eq!(rt;
        judged(heap, (0, 5, 30), &[(12, 0), (3, 1)])?,
        at(Refusal::NoTurn, 1)
    );
    assert_eq!(rt;
        judged(heap, (0, 4, 30), &[(12, 0), (2, 0)])?,
        at(Refusal::LaneTooLow, 1)
    );
    assert_eq!(rt;
        judged(heap, (0, 5, 30), &[(12, 0), (2, 1)])?,
        at(Refusal::WrongEnd, 1)
    );
    let round = [(2, 0), (16, 0), (10, 1), (21, 1), (2, 2)];
    assert_eq!(rt;
        judged(heap, (3, 4, 30), &round)?,
        at(Refusal::RepeatedLink, 4)
    );
    assert_eq!(rt;
        judged(heap, (0, 1, 21), &[(0, 0)])?,
        at(Refusal::OverCapacity, 0)
    );
    Ok(())
}

// Two faults in each route: the check that is made first is told, also where the other fault stands at an earlier hop.
#[test]
fn earlier_check_first(rt: HostRuntime) -> Result<(), Fail> {
    let heap = rt.alloc();
    assert_eq!(rt;
        judged(heap, (4, 4, 0), &[(12, 0), (2, 1)])?,
        whole(Refusal::BadEndpoints)
    );
    assert_eq!(rt; judged(heap, (0, 4, 0), &[])?, whole(Refusal::ZeroAmount));
    assert_eq!(rt;
        judged(heap, (0, 4, 30), &[(24, 0); 25])?,
        whole(Refusal::HopCount)
    );
    assert_eq!(rt;
        judged(heap, (1, 4, 30), &[(12, 0), (24, 1)])?,
        at(Refusal::OffGrid, 1)
    );
    assert_eq!(rt;
        judged(heap, (1, 5, 30), &[(12, 0), (3, 1)])?,
        at(Refusal::WrongStart, 0)
    );
    assert_eq!(rt;
        judged(heap, (0, 8, 30), &[(12, 0), (2, 0), (5, 0)])?,
        at(Refusal::NoTurn, 2)
    );
    assert_eq!(rt;
        judged(heap, (0, 5, 30), &[(12, 0), (2, 0)])?,
        at(Refusal::LaneTooLow, 1)
    );
    let round = [(2, 0), (16, 0), (10, 1), (21, 1), (2, 2)];
    assert_eq!(rt; judged(heap, (3, 5, 30), &round)?, at(Refusal::WrongEnd, 4));
    let loaded = [(0, 0), (13, 0), (8, 1), (18, 1), (0, 2)];
    assert_eq!(rt;
        judged(heap, (0, 1, 30), &loaded)?,
        at(Refusal::RepeatedLink, 4)
    );
    Ok(())
}

// Streams 3 and 63 use link 13, which counts each of them once.
#[test]
fn loads_of_two_streams(rt: HostRuntime) -> Result<(), Fail> {
    let mut streams = [None; 64];
    let request = Request {
        source: 0,
        target: 4,
        demand: 65535,
    };
    let route = Route::new(&[Hop { link: 0, lane: 0 }, Hop { link: 13, lane: 0 }])?;
    streams[3] = Some(Stream { request, route });
    streams[63] = Some(Stream {
        request,
        route: Route::new(&[Hop { link: 13, lane: 1 }])?,
    });
    assert_eq!(rt; link_load(&streams, 0), 65535);
    assert_eq!(rt; link_load(&streams, 13), 131070);
    assert_eq!(rt; link_load(&streams, 1), 0);
    Ok(())
}

// A number past the end of a table is not open, and the 65th entry of a longer one does not count.
#[test]
fn loads_by_tables_of_any_length(rt: HostRuntime) -> Result<(), Fail> {
    let stream = Some(Stream {
        request: Request {
            source: 0,
            target: 1,
            demand: 7,
        },
        route: Route::new(&[Hop { link: 0, lane: 0 }])?,
    });
    assert_eq!(rt; link_load_by_table(&[], 0), 0);
    assert_eq!(rt; link_load_by_table(&[None, stream], 0), 7);
    let mut longer = [None; 65];
    longer[63] = stream;
    longer[64] = stream;
    assert_eq!(rt; link_load_by_table(&longer, 0), 7);
    Ok(())
}

// The stream that takes the capacity has number 5.
#[test]
fn judges_by_tables_of_any_length(rt: HostRuntime) -> Result<(), Fail> {
    let mesh = Mesh::new(TurnRule::Xy, 3, 3)?;
    let request = |demand| Request {
        source: 0,
        target: 1,
        demand,
    };
    let hops = [Hop { link: 0, lane: 0 }];
    let mut streams = [None; 64];
    streams[5] = Some(Stream {
        request: request(80),
        route: Route::new(&hops)?,
    });
    let limits = Limits {
        lanes: 3,
        capacity: 100,
        streams: &streams,
    };
    let over = at(Refusal::OverCapacity, 0);
    assert_eq!(rt; judge(&mesh, limits, request(21), &hops).err(), over);
    let judged = |streams: &[Option<Stream>]| {
        let limits = TableLimits {
            streams,
            ..limits.by_table()
        };
        judge_by_table(&mesh, limits, request(21), &hops).err()
    };
    assert_eq!(rt; judged(&streams), over);
    assert_eq!(rt; judged(&streams[..6]), over);
    assert_eq!(rt; judged(&streams[..5]), None);
    assert_eq!(rt; judged(&[]), None);
    Ok(())
}
