// A replay on an upward grid.
use crate::ring::Ring;
use crate::tests::{hop, request};
use crate::upward::Upward;
use codec::head::GridSizes;
use grid::step::Step;
use grid::sweep::Sweep;
use refusals::refusal::Refusal;
use routes::declined::Declined;
use runs::call::{Call, Failure, Reply};
use runs::given::Given;
use runs::lent::Lent;
use runs::replay::{Run, replay};
use std::test::Fail;

const SIZES: GridSizes = GridSizes {
    lanes: 2,
    depth: 2,
    capacity: 100,
};

// Stream 7 goes up from tile 0 to tile 2: one item step by step, and one in a sweep, since the numbers of its links rise. Then it is
// declined on a way whose numbers fall.
#[test]
fn replayed(rt: HostRuntime) -> Result<(), Fail> {
    let heap = rt.alloc();
    let up = Given(vec![in heap; hop(0, 0), hop(1, 0)]?);
    let down = Given(vec![in heap; hop(3, 0), hop(0, 0)]?);
    let calls = [
        Call::Open(7, request(0, 2, 60), up),
        Call::Send(7, 5),
        Call::Step(hop(0, 0)),
        Call::Step(hop(1, 0)),
        Call::Send(7, 6),
        Call::Sweep,
        Call::Close(7),
        Call::Open(7, request(3, 1, 60), down),
    ];
    let mut slots = [0; 20];
    let (mut streams, mut items) = ([9; 10], [0; 10]);
    let mut lent = Lent {
        slots: &mut slots,
        values: &mut [],
        marks: &mut [],
        streams: &mut streams,
        items: &mut items,
    };
    let run: Run<Ring, Upward, u32> = replay(heap, Ring, SIZES, &mut lent, &calls)?;
    let declined = Failure::Declined(Declined {
        refusal: Refusal::LaneTooLow,
        hop: Some(1),
    });
    let answers = [
        Ok(Reply::Done),
        Ok(Reply::Done),
        Ok(Reply::Stepped(Step::Moved(7))),
        Ok(Reply::Stepped(Step::Out(7, 5))),
        Ok(Reply::Done),
        Ok(Reply::Swept(Sweep { steps: 2, items: 1 })),
        Ok(Reply::Done),
        Err(declined),
    ];
    assert_eq!(rt; run.answers.as_slice(), answers.as_slice());
    assert_eq!(rt; (streams[0], items[0], items[1]), (7, 6, 0));
    assert_eq!(rt; run.grid.items(), 0);
    Ok(())
}
