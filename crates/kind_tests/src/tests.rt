// Upward grids, with a capacity of 100 and two items to a lane, and answers worked out by hand.
use crate::ring::Ring;
use crate::upward::Upward;
use grid::grid::Grid;
use grid::step::Step;
use layouts::mesh::Mesh;
use layouts::turn_rule::TurnRule;
use layouts::ways::Ways;
use policies::policy::Policy;
use refusals::refusal::Refusal;
use routes::declined::Declined;
use routes::hop::Hop;
use routes::stream::Request;
use std::alloc::Global;
use std::process::Abort;
use std::test::Fail;

pub(crate) fn hop(link: u16, lane: u8) -> Hop {
    Hop { link, lane }
}

pub(crate) fn request(source: u16, target: u16, demand: u16) -> Request {
    Request {
        source,
        target,
        demand,
    }
}

// A grid on the ring, with two lanes to a link.
pub(crate) fn on_ring(heap: Global) -> Result<Grid<Ring, Upward>, Fail> {
    Ok(Grid::blank(heap, Ring, 2, 2, 100)?)
}

// A grid of a policy on a mesh of 2 × 2 tiles, with one lane to a link, where east to south is a climb.
pub(crate) fn on_mesh<P: Policy<Mesh>>(heap: Global) -> Result<Grid<Mesh, P>, Fail> {
    let mesh = Mesh::new(TurnRule::NegativeFirst, 2, 2)?;
    Ok(Grid::blank(heap, mesh, 1, 2, 100)?)
}

fn whole(refusal: Refusal) -> Result<(), Declined> {
    Err(Declined { refusal, hop: None })
}

fn at(refusal: Refusal, hop: usize) -> Result<(), Declined> {
    Err(Declined {
        refusal,
        hop: Some(hop),
    })
}

// A send of an item of stream 7, which has to be let in, and a step with what it has to answer.
fn send<W: Ways>(rt: &impl Abort, grid: &mut Grid<W, Upward>, slots: &mut [u32], item: u32) {
    assert_eq!(rt; grid.send(slots, 7, item), Ok(()), "{item}");
}

fn step<W: Ways>(
    rt: &impl Abort,
    grid: &mut Grid<W, Upward>,
    slots: &mut [u32],
    lane: Hop,
    answer: Step<u32>,
) {
    assert_eq!(rt; grid.step(slots, lane), Ok(answer), "{lane:?}");
}

// Stream 7 loads link 4. Each fault is the first of its stream.
#[test]
fn refusals(rt: HostRuntime) -> Result<(), Fail> {
    let mut grid = on_ring(rt.alloc())?;
    grid.open(7, request(0, 2, 60), &[hop(4, 0)])?;
    let faults: [(Request, &[Hop], Result<(), Declined>); 10] = [
        (request(4, 2, 0), &[], whole(Refusal::BadEndpoints)),
        (request(1, 1, 0), &[], whole(Refusal::BadEndpoints)),
        (request(0, 2, 0), &[], whole(Refusal::ZeroAmount)),
        (request(0, 2, 41), &[], whole(Refusal::HopCount)),
        (
            request(1, 3, 41),
            &[hop(4, 0), hop(0, 2)],
            at(Refusal::OffGrid, 1),
        ),
        (
            request(1, 3, 41),
            &[hop(4, 0), hop(0, 1)],
            at(Refusal::WrongStart, 0),
        ),
        (
            request(0, 3, 41),
            &[hop(4, 0), hop(0, 1)],
            at(Refusal::NoTurn, 1),
        ),
        (
            request(0, 1, 41),
            &[hop(4, 0), hop(2, 0)],
            at(Refusal::LaneTooLow, 1),
        ),
        (
            request(3, 1, 41),
            &[hop(3, 0), hop(4, 0)],
            at(Refusal::WrongEnd, 1),
        ),
        (
            request(3, 2, 41),
            &[hop(3, 0), hop(4, 0)],
            at(Refusal::OverCapacity, 1),
        ),
    ];
    for (request, hops, answer) in faults {
        assert_eq!(rt; grid.open(8, request, hops), answer);
    }
    assert_eq!(rt;
        grid.open(8, request(3, 2, 40), &[hop(3, 0), hop(4, 0)]),
        Ok(())
    );
    Ok(())
}

// Stream 7 goes up two links of the ring on a lane that falls, and is closed once its items are out.
#[test]
fn up_the_ring(rt: HostRuntime) -> Result<(), Fail> {
    let mut grid = on_ring(rt.alloc())?;
    grid.open(7, request(0, 2, 60), &[hop(0, 1), hop(1, 0)])?;
    let mut slots = [0; 20];
    send(&rt, &mut grid, &mut slots, 5);
    send(&rt, &mut grid, &mut slots, 6);
    step(&rt, &mut grid, &mut slots, hop(0, 1), Step::Moved(7));
    step(&rt, &mut grid, &mut slots, hop(0, 1), Step::Moved(7));
    step(&rt, &mut grid, &mut slots, hop(1, 0), Step::Out(7, 5));
    assert_eq!(rt; grid.close(7), Err(Refusal::ItemsOnGrid));
    step(&rt, &mut grid, &mut slots, hop(1, 0), Step::Out(7, 6));
    assert_eq!(rt; grid.close(7), Ok(()));
    Ok(())
}

// From tile 2 east to tile 3 and south to tile 1. On one lane the mesh's rule bars that; here it does not count.
#[test]
fn past_the_rule(rt: HostRuntime) -> Result<(), Fail> {
    let asked = request(2, 1, 60);
    let way = [hop(1, 0), hop(7, 0)];
    let mut by_rules: Grid<Mesh> = on_mesh(rt.alloc())?;
    assert_eq!(rt; by_rules.open(7, asked, &way), at(Refusal::LaneTooLow, 1));
    let mut grid: Grid<Mesh, Upward> = on_mesh(rt.alloc())?;
    assert_eq!(rt; grid.open(7, asked, &way), Ok(()));
    let mut slots = [0; 16];
    send(&rt, &mut grid, &mut slots, 5);
    step(&rt, &mut grid, &mut slots, way[0], Step::Moved(7));
    step(&rt, &mut grid, &mut slots, way[1], Step::Out(7, 5));
    Ok(())
}
