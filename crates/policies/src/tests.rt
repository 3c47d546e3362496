// The judgements of a policy, by the table of a grid and by others.
use crate::climbing::Climbing;
use crate::policy::Policy;
use crate::table_policy::TablePolicy;
use layouts::mesh::Mesh;
use layouts::turn_rule::TurnRule;
use refusals::refusal::Refusal;
use routes::declined::Declined;
use routes::hop::Hop;
use routes::judge::{Limits, TableLimits};
use routes::route::Route;
use routes::stream::{Request, Stream};
use std::test::Fail;

// The stream that takes the capacity has number 5.
#[test]
fn judges_by_the_table(rt: HostRuntime) -> Result<(), Fail> {
    let mesh = Mesh::new(TurnRule::Xy, 3, 3)?;
    let request = |demand| Request {
        source: 0,
        target: 1,
        demand,
    };
    let hops = [Hop { link: 0, lane: 0 }];
    let mut streams = [None; 64];
    streams[5] = Some(Stream {
        request: request(80),
        route: Route::new(&hops)?,
    });
    let limits = Limits {
        lanes: 3,
        capacity: 100,
        streams: &streams,
    };
    let over = Some(Declined {
        refusal: Refusal::OverCapacity,
        hop: Some(0),
    });
    assert_eq!(rt;
        Climbing::judge(&mesh, limits, request(20), &hops).err(),
        None
    );
    assert_eq!(rt;
        Climbing::judge(&mesh, limits, request(21), &hops).err(),
        over
    );
    let unloaded = TableLimits {
        streams: &[],
        ..limits.by_table()
    };
    assert_eq!(rt;
        Climbing::judge_by_table(&mesh, limits.by_table(), request(21), &hops).err(),
        over
    );
    assert_eq!(rt;
        Climbing::judge_by_table(&mesh, unloaded, request(21), &hops).err(),
        None
    );
    Ok(())
}
