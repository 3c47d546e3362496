// Streams 5 and 63 on a 3 × 3 mesh under the rule XY, with three lanes to a link and two places to a lane: 144 slots.
// Stream 5 goes over FIRST, SECOND and LAST; stream 63 joins it at SECOND. Answers and slots are worked out by hand.
use crate::call::{Answer, Call, Failure, Reply};
use crate::given::Given;
use crate::given_or_best::GivenOrBest;
use crate::lent::Lent;
use crate::replay::{Run, replay};
use codec::head::GridSizes;
use grid::make::MakeError;
use grid::step::Step;
use grid::sweep::Sweep;
use lanes::strip::Strip;
use layouts::mesh::Mesh;
use layouts::turn_rule::TurnRule;
use plan::fault::{InRecord, LoadFault};
use policies::climbing::Climbing;
use refusals::refusal::Refusal;
use routes::declined::Declined;
use routes::hop::Hop;
use routes::stream::Request;
use search::choice::{Choice, Either};
use search::peak::Peak;
use search::total::Total;
use std::alloc::Global;
use std::test::Fail;

// Seeks go by the sum of the loads or by the largest load.
type Measures = Choice<Total, Peak>;

type Routes = GivenOrBest<Measures>;

const SIZES: GridSizes = GridSizes {
    lanes: 3,
    depth: 2,
    capacity: 100,
};

const FIRST: Hop = Hop { link: 0, lane: 1 };

const SECOND: Hop = Hop { link: 1, lane: 1 };

const LAST: Hop = Hop { link: 14, lane: 2 };

// The fields of streams 5 and 63.
const REQUEST_5: Request = Request {
    source: 0,
    target: 5,
    demand: 40,
};

const REQUEST_63: Request = Request {
    source: 1,
    target: 5,
    demand: 60,
};

fn open_5(heap: Global) -> Result<Call<u32, Routes>, Fail> {
    let hops = vec![in heap; FIRST, SECOND, LAST]?;
    Ok(Call::Open(5, REQUEST_5, GivenOrBest::Given(hops)))
}

fn open_63(heap: Global) -> Result<Call<u32, Routes>, Fail> {
    let hops = vec![in heap; SECOND, LAST]?;
    Ok(Call::Open(63, REQUEST_63, GivenOrBest::Given(hops)))
}

fn moved(stream: u16) -> Answer<u32> {
    Ok(Reply::Stepped(Step::Moved(stream)))
}

fn out(stream: u16, item: u32) -> Answer<u32> {
    Ok(Reply::Stepped(Step::Out(stream, item)))
}

fn refused(refusal: Refusal) -> Answer<u32> {
    Err(refusal.into())
}

// Scratch for a seek on 24 links with three lanes.
fn scratch() -> ([Either<u32, (u16, u16)>; 144], [u16; 1728]) {
    ([Either::First(0); 144], [0; 1728])
}

// Tables for what comes out by sweeps of 24 links with three lanes.
fn tables() -> ([u16; 72], [u32; 72]) {
    ([99; 72], [9; 72])
}

// A run of lamp words, with tables lent for its sweeps.
fn run_with(
    heap: Global,
    slots: &mut [u32],
    streams: &mut [u16],
    items: &mut [u32],
    calls: &[Call<u32, Routes>],
) -> Result<Run<Mesh, Climbing, u32>, Fail> {
    let mesh = Mesh::new(TurnRule::Xy, 3, 3)?;
    let (mut values, mut marks) = scratch();
    let mut lent = Lent {
        slots,
        values: &mut values,
        marks: &mut marks,
        streams,
        items,
    };
    Ok(replay(heap, mesh, SIZES, &mut lent, calls)?)
}

// A run without sweeps.
fn run(
    heap: Global,
    slots: &mut [u32],
    calls: &[Call<u32, Routes>],
) -> Result<Run<Mesh, Climbing, u32>, Fail> {
    run_with(heap, slots, &mut [], &mut [], calls)
}

// Sends in an uneven order, then four rounds of steps, and a close.
fn calls(heap: Global) -> Result<Vec<Call<u32, Routes>>, Fail> {
    let first = open_5(heap)?;
    let second = open_63(heap)?;
    Ok(vec![in heap;
        first,
        second,
        Call::Send(5, 1),
        Call::Send(63, 3),
        Call::Send(5, 2),
        Call::Step(FIRST),
        Call::Send(63, 4),
        Call::Step(SECOND),
        Call::Send(63, 4),
        Call::Step(FIRST),
        Call::Step(LAST),
        Call::Step(FIRST),
        Call::Step(SECOND),
        Call::Step(LAST),
        Call::Step(FIRST),
        Call::Step(SECOND),
        Call::Step(LAST),
        Call::Step(FIRST),
        Call::Step(SECOND),
        Call::Step(LAST),
        Call::Step(FIRST),
        Call::Step(SECOND),
        Call::Step(LAST),
        Call::Close(5),
    ]?)
}

// The answers to these calls.
fn answers() -> [Answer<u32>; 24] {
    [
        Ok(Reply::Done),
        Ok(Reply::Done),
        Ok(Reply::Done),
        Ok(Reply::Done),
        Ok(Reply::Done),
        moved(5),
        refused(Refusal::LaneFull),
        moved(63),
        Ok(Reply::Done),
        refused(Refusal::Held),
        out(63, 3),
        refused(Refusal::Held),
        moved(5),
        out(5, 1),
        moved(5),
        moved(63),
        out(63, 4),
        refused(Refusal::LaneEmpty),
        moved(5),
        out(5, 2),
        refused(Refusal::LaneEmpty),
        refused(Refusal::LaneEmpty),
        refused(Refusal::LaneEmpty),
        Ok(Reply::Done),
    ]
}

// Slots that all hold 9, but for these items. Lane 1 of link 0 begins at slot 2, lane 1 of link 1 at slot 8, and lane 2
// of link 14 at slot 88.
fn slots_with(items: &[(usize, u32)]) -> [u32; 144] {
    let mut slots = [9; 144];
    for (slot, item) in items {
        if let Some(place) = slots.get_mut(*slot) {
            *place = *item;
        }
    }
    slots
}

// What the calls leave in the slots.
const LEFT: [(usize, u32); 6] = [(2, 1), (3, 2), (8, 4), (9, 2), (88, 4), (89, 2)];

// A strip for a word; and with it a call and an answer.
fn strip(word: u32) -> Strip {
    Strip {
        fragment: word,
        band: 12,
        row: 7,
    }
}

fn strip_call(call: Call<u32, Routes>) -> Call<Strip, Routes> {
    match call {
        Call::Open(stream, request, route) => Call::Open(stream, request, route),
        Call::Close(stream) => Call::Close(stream),
        Call::Send(stream, word) => Call::Send(stream, strip(word)),
        Call::Step(hop) => Call::Step(hop),
        Call::Sweep => Call::Sweep,
        Call::Load(plan) => Call::Load(plan),
    }
}

fn strip_answer(answer: Answer<u32>) -> Answer<Strip> {
    answer.map(|reply| match reply {
        Reply::Done => Reply::Done,
        Reply::Found(hops) => Reply::Found(hops),
        Reply::Stepped(Step::Moved(stream)) => Reply::Stepped(Step::Moved(stream)),
        Reply::Stepped(Step::Out(stream, word)) => Reply::Stepped(Step::Out(stream, strip(word))),
        Reply::Swept(told) => Reply::Swept(told),
        Reply::Loaded(records) => Reply::Loaded(records),
    })
}

#[test]
fn strips_of_two_streams(rt: HostRuntime) -> Result<(), Fail> {
    let heap = rt.alloc();
    let mesh = Mesh::new(TurnRule::Xy, 3, 3)?;
    let calls: Vec<Call<Strip, Routes>> = calls(heap)?.into_iter().map(strip_call).collect(heap)?;
    let mut slots = [strip(9); 144];
    let (mut values, mut marks) = scratch();
    let mut lent = Lent {
        slots: &mut slots,
        values: &mut values,
        marks: &mut marks,
        streams: &mut [],
        items: &mut [],
    };
    let run: Run<Mesh, Climbing, Strip> = replay(heap, mesh, SIZES, &mut lent, calls.as_slice())?;
    assert_eq!(rt;
        run.answers.as_slice(),
        answers().map(strip_answer).as_slice()
    );
    assert_eq!(rt; slots, slots_with(&LEFT).map(strip));
    assert_eq!(rt; run.grid.items(), 0);
    Ok(())
}

// Lamp words, with slots enough and with one too few.
#[test]
fn lamp_words(rt: HostRuntime) -> Result<(), Fail> {
    let heap = rt.alloc();
    let calls = calls(heap)?;
    let mut slots = [9; 144];
    let done = run(heap, &mut slots, calls.as_slice())?;
    assert_eq!(rt; done.answers.as_slice(), answers().as_slice());
    assert_eq!(rt; slots, slots_with(&LEFT));
    let mut slots = [9; 143];
    let declined = run(heap, &mut slots, calls.as_slice())?;
    assert_eq!(rt; declined.answers.len(), calls.len());
    for (call, answer) in calls.iter().zip(&declined.answers) {
        let expected = match call {
            Call::Send(..) | Call::Step(_) => refused(Refusal::TooFewSlots),
            _ => Ok(Reply::Done),
        };
        assert_eq!(rt; *answer, expected);
    }
    assert_eq!(rt; slots, [9; 143]);
    assert_eq!(rt;
        (declined.grid.items(), declined.grid.size().slots()),
        (0, 144)
    );
    Ok(())
}

// Grids that are refused: lanes, depth, capacity, and why.
#[test]
fn refused_grids(rt: HostRuntime) -> Result<(), Fail> {
    let heap = rt.alloc();
    let calls = calls(heap)?;
    let mut slots = [9; 144];
    let (mut values, mut marks) = scratch();
    let (mut streams, mut items) = tables();
    for (lanes, depth, capacity, refusal) in [
        (0, 2, 100, Refusal::GridSize),
        (5, 2, 100, Refusal::GridSize),
        (3, 0, 100, Refusal::GridSize),
        (3, 9, 100, Refusal::GridSize),
        (3, 9, 0, Refusal::GridSize),
        (3, 2, 0, Refusal::ZeroAmount),
    ] {
        let mesh = Mesh::new(TurnRule::Xy, 3, 3)?;
        let sizes = GridSizes {
            lanes,
            depth,
            capacity,
        };
        let mut lent = Lent {
            slots: &mut slots,
            values: &mut values,
            marks: &mut marks,
            streams: &mut streams,
            items: &mut items,
        };
        let run: Result<Run<Mesh, Climbing, u32>, MakeError> = replay(
            heap,
            mesh,
            sizes,
            &mut lent,
            calls.as_slice(),
        );
        assert_eq!(rt; run.err(), Some(MakeError::Refused(refusal)));
        assert_eq!(rt; slots, [9; 144]);
        assert_eq!(rt; (streams, items), tables());
    }
    Ok(())
}

// Two lanes are filled; then three calls are declined, and three are done.
fn calls_on_full_lanes(heap: Global) -> Result<Vec<Call<u32, Routes>>, Fail> {
    let first = open_5(heap)?;
    let second = open_63(heap)?;
    let again = open_5(heap)?;
    Ok(vec![in heap;
        first,
        second,
        Call::Send(5, 1),
        Call::Send(5, 2),
        Call::Send(63, 3),
        Call::Send(63, 4),
        Call::Close(5),
        again,
        Call::Step(FIRST),
        Call::Step(SECOND),
        Call::Step(LAST),
        Call::Step(FIRST),
    ]?)
}

// The run goes on as if the calls that are declined had not been made.
#[test]
fn declined_in_the_middle(rt: HostRuntime) -> Result<(), Fail> {
    let heap = rt.alloc();
    let mut slots = [9; 144];
    let run = run(heap, &mut slots, calls_on_full_lanes(heap)?.as_slice())?;
    let expected = [
        Ok(Reply::Done),
        Ok(Reply::Done),
        Ok(Reply::Done),
        Ok(Reply::Done),
        Ok(Reply::Done),
        Ok(Reply::Done),
        refused(Refusal::ItemsOnGrid),
        refused(Refusal::AlreadyOpen),
        refused(Refusal::Held),
        moved(63),
        out(63, 3),
        moved(5),
    ];
    assert_eq!(rt; run.answers.as_slice(), expected.as_slice());
    let left = [(2, 1), (3, 2), (8, 1), (9, 4), (88, 3)];
    assert_eq!(rt; slots, slots_with(&left));
    for (hop, count) in [(FIRST, 1), (SECOND, 2), (LAST, 0)] {
        assert_eq!(rt; run.grid.count(hop), Ok(count));
    }
    Ok(())
}

// Stream 7 goes from tile 2 to tile 0, over links whose numbers fall.
fn open_7(heap: Global) -> Result<Call<u32, Routes>, Fail> {
    let request = Request {
        source: 2,
        target: 0,
        demand: 30,
    };
    let hops = vec![in heap; Hop { link: 7, lane: 0 }, Hop { link: 6, lane: 0 }]?;
    Ok(Call::Open(7, request, GivenOrBest::Given(hops)))
}

// Two items of stream 5 and one of stream 7, and four sweeps.
fn calls_with_sweeps(heap: Global) -> Result<Vec<Call<u32, Routes>>, Fail> {
    let first = open_5(heap)?;
    let second = open_7(heap)?;
    Ok(vec![in heap;
        first,
        second,
        Call::Send(5, 1),
        Call::Send(5, 2),
        Call::Send(7, 3),
        Call::Sweep,
        Call::Sweep,
        Call::Sweep,
        Call::Send(5, 4),
        Call::Sweep,
        Call::Close(5),
    ]?)
}

fn swept(steps: usize, items: usize) -> Answer<u32> {
    Ok(Reply::Swept(Sweep { steps, items }))
}

// An item of stream 5 goes over all of its three hops in one sweep, one of stream 7 over one hop. The last sweep writes over the
// first of the two entries of the second one.
#[test]
fn sweeps(rt: HostRuntime) -> Result<(), Fail> {
    let heap = rt.alloc();
    let mut slots = [9; 144];
    let (mut streams, mut items) = tables();
    let calls = calls_with_sweeps(heap)?;
    let run = run_with(heap, &mut slots, &mut streams, &mut items, calls.as_slice())?;
    let expected = [
        Ok(Reply::Done),
        Ok(Reply::Done),
        Ok(Reply::Done),
        Ok(Reply::Done),
        Ok(Reply::Done),
        swept(4, 1),
        swept(4, 2),
        swept(0, 0),
        Ok(Reply::Done),
        swept(3, 1),
        Ok(Reply::Done),
    ];
    assert_eq!(rt; run.answers.as_slice(), expected.as_slice());
    assert_eq!(rt; streams.get(..3), Some(&[5, 5, 99][..]));
    assert_eq!(rt; items.get(..3), Some(&[4, 2, 9][..]));
    let left = [
        (2, 4),
        (3, 2),
        (8, 4),
        (9, 2),
        (36, 3),
        (42, 3),
        (88, 4),
        (89, 2),
    ];
    assert_eq!(rt; slots, slots_with(&left));
    Ok(())
}

// With an entry too few in one of the tables, or a slot too few, no sweep is made.
#[test]
fn sweeps_lent_too_little(rt: HostRuntime) -> Result<(), Fail> {
    let heap = rt.alloc();
    let calls = calls_with_sweeps(heap)?;
    for (slot_count, stream_count, item_count) in [(144, 71, 72), (144, 72, 71), (143, 72, 72)] {
        let mut slots = [9; 144];
        let (mut streams, mut items) = tables();
        let run = run_with(
            heap,
            &mut slots[..slot_count],
            &mut streams[..stream_count],
            &mut items[..item_count],
            calls.as_slice(),
        )?;
        for (call, answer) in calls.iter().zip(&run.answers) {
            if let Call::Sweep = call {
                assert_eq!(rt; *answer, refused(Refusal::TooFewSlots));
            }
        }
        assert_eq!(rt; (streams, items), tables());
    }
    Ok(())
}

// Openings that are all given are lent no scratch.
#[test]
fn given_routes(rt: HostRuntime) -> Result<(), Fail> {
    let heap = rt.alloc();
    let mesh = Mesh::new(TurnRule::Xy, 3, 3)?;
    let calls: Vec<Call<u32, Given>> = vec![in heap;
        Call::Open(5, REQUEST_5, Given(vec![in heap; FIRST, SECOND, LAST]?)),
        Call::Open(5, REQUEST_5, Given(vec![in heap; FIRST, SECOND, LAST]?)),
        Call::Open(63, REQUEST_63, Given(vec![in heap; SECOND, FIRST]?)),
        Call::Send(5, 1),
        Call::Step(FIRST),
        Call::Step(SECOND),
        Call::Step(LAST),
        Call::Close(5),
    ]?;
    let mut slots = [9; 144];
    let mut lent = Lent {
        slots: &mut slots,
        values: &mut [],
        marks: &mut [],
        streams: &mut [],
        items: &mut [],
    };
    let run: Run<Mesh, Climbing, u32> = replay(heap, mesh, SIZES, &mut lent, calls.as_slice())?;
    let no_turn = Declined {
        refusal: Refusal::NoTurn,
        hop: Some(1),
    };
    let expected = [
        Ok(Reply::Done),
        refused(Refusal::AlreadyOpen),
        Err(no_turn.into()),
        Ok(Reply::Done),
        moved(5),
        moved(5),
        out(5, 1),
        Ok(Reply::Done),
    ];
    assert_eq!(rt; run.answers.as_slice(), expected.as_slice());
    Ok(())
}

// Seeks by both measures in one run, on links that bear 40 (link 0) and 30 (links 12 and 2): from tile 0 to tile 4 the sum of the
// loads is less over links 0 and 13, the largest load less over 12 and 2.
#[test]
fn seeks_by_two_measures(rt: HostRuntime) -> Result<(), Fail> {
    let heap = rt.alloc();
    let mesh = Mesh::new(TurnRule::NegativeFirst, 3, 3)?;
    let load = |source, target, demand| Request {
        source,
        target,
        demand,
    };
    let best = |is_second| {
        GivenOrBest::Best(Choice {
            first: Total,
            second: Peak,
            is_second,
        })
    };
    let calls: Vec<Call<u32, Routes>> = vec![in heap;
        Call::Open(0, load(0, 1, 40), best(false)),
        Call::Open(1, load(0, 3, 30), best(true)),
        Call::Open(2, load(3, 4, 30), best(false)),
        Call::Open(3, load(0, 4, 10), best(false)),
        Call::Close(3),
        Call::Open(3, load(0, 4, 10), best(true)),
        Call::Open(3, load(0, 4, 10), best(true)),
        Call::Open(4, load(0, 4, 71), best(true)),
    ]?;
    let mut slots = [9; 24];
    let (mut values, mut marks) = scratch();
    let mut lent = Lent {
        slots: &mut slots,
        values: &mut values,
        marks: &mut marks,
        streams: &mut [],
        items: &mut [],
    };
    let sizes = GridSizes {
        lanes: 1,
        depth: 1,
        capacity: 100,
    };
    let run: Run<Mesh, Climbing, u32> = replay(heap, mesh, sizes, &mut lent, calls.as_slice())?;
    let expected = [
        Ok(Reply::Found(1)),
        Ok(Reply::Found(1)),
        Ok(Reply::Found(1)),
        Ok(Reply::Found(2)),
        Ok(Reply::Done),
        Ok(Reply::Found(2)),
        refused(Refusal::AlreadyOpen),
        refused(Refusal::NoRoute),
    ];
    assert_eq!(rt; run.answers.as_slice(), expected.as_slice());
    for (link, load) in [(0, 40), (13, 0), (12, 40), (2, 40)] {
        assert_eq!(rt; run.grid.link_load(link), Ok(load));
    }
    Ok(())
}

// A plan for this mesh with one lane to a link, two places to a lane and some capacity. Stream 0 goes over links 0 and 13 and
// asks for 30, stream 1 goes over links 0, 1, 14 and 17 and asks for 20.
fn plan(heap: Global, capacity: u8) -> Result<Vec<u8>, Fail> {
    Ok(vec![in heap;
        1, 1, 3, 3, 1, 2, capacity, 2, 0, 0, 4, 30, 2, 0, 52, 1, 0, 8, 20, 4, 0, 4, 56, 68,
    ]?)
}

// What these calls answer on a grid that such a plan fits.
fn answers_on(
    heap: Global,
    capacity: u8,
    calls: &[Call<u32, Routes>],
) -> Result<Vec<Answer<u32>>, Fail> {
    let mesh = Mesh::new(TurnRule::Xy, 3, 3)?;
    let (mut values, mut marks) = scratch();
    let mut slots = [9; 48];
    let mut lent = Lent {
        slots: &mut slots,
        values: &mut values,
        marks: &mut marks,
        streams: &mut [],
        items: &mut [],
    };
    let sizes = GridSizes {
        lanes: 1,
        depth: 2,
        capacity: u16::from(capacity),
    };
    let run: Run<Mesh, Climbing, u32> = replay(heap, mesh, sizes, &mut lent, calls)?;
    Ok(run.answers)
}

// The step of the lane of a link.
fn step(link: u16) -> Call<u32, Routes> {
    Call::Step(Hop { link, lane: 0 })
}

// A stream of a plan takes an item, which comes out.
#[test]
fn loaded_plan(rt: HostRuntime) -> Result<(), Fail> {
    let heap = rt.alloc();
    let plan = plan(heap, 100)?;
    let calls = vec![in heap;
        Call::Load(plan),
        Call::Send(1, 7),
        step(0),
        step(1),
        step(14),
        step(17),
    ]?;
    let expected = [
        Ok(Reply::Loaded(2)),
        Ok(Reply::Done),
        moved(1),
        moved(1),
        moved(1),
        out(1, 7),
    ];
    assert_eq!(rt;
        answers_on(heap, 100, calls.as_slice())?.as_slice(),
        expected.as_slice()
    );
    Ok(())
}

// With less capacity the second stream is declined, and the first is open.
#[test]
fn loaded_in_part(rt: HostRuntime) -> Result<(), Fail> {
    let heap = rt.alloc();
    let plan = plan(heap, 40)?;
    let calls = vec![in heap;
        Call::Load(plan),
        Call::Send(1, 8),
        Call::Send(0, 7),
        step(0),
        step(13),
    ]?;
    let declined = Declined {
        refusal: Refusal::OverCapacity,
        hop: Some(0),
    };
    let fault = LoadFault::Grid(InRecord {
        number: 1,
        fault: declined,
    });
    let expected = [
        Err(Failure::NotLoaded(fault)),
        refused(Refusal::NotOpen),
        Ok(Reply::Done),
        moved(0),
        out(0, 7),
    ];
    assert_eq!(rt;
        answers_on(heap, 40, calls.as_slice())?.as_slice(),
        expected.as_slice()
    );
    Ok(())
}
