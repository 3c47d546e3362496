// Replaying a list of calls.
ghost use Rattle.std.specs.Prelude.{◌≡◌, IfOk, IfErr};
ghost use Rattle.search.specs.Finds.{values_needed, marks_needed, SameBeyond};
ghost use Rattle.grid.specs.Blank.{NotMade};
ghost use Rattle.runs.specs.Lending.{SameSlices};
ghost use Rattle.runs.specs.Routings.{finding};
ghost use Rattle.runs.specs.Meanings.{conditions};
ghost use Rattle.runs.specs.Runs.{Replays};

use crate::call::{Answer, Call, Reply};
use crate::lent::Lent;
use crate::make::make;
use crate::routing::Routing;
use codec::head::GridSizes;
use grid::grid::Grid;
use grid::make::MakeError;
use layouts::ways::Ways;
use policies::policy::Policy;
use std::alloc::Global;

/// What a replay comes to.
#[derive(Drop)]
pub struct Run<W: Ways, P: Policy<W>, T> {
    /// The grid after the last call.
    pub grid: Grid<W, P>,
    /// The answer to each call, in their order.
    pub answers: Vec<Answer<T>>,
}

/// Makes calls one after another on a grid that starts blank, with slots lent, enough or not, and records each answer. Openings that
/// search for their routes are lent the scratch; what is in it afterwards is left open, and so is which of equally good routes they
/// take. What is lent beyond the scratch of the grid is not touched. The load of a plan is as many openings as it opens records,
/// also where a fault is behind them. A sweep is a step on every lane once, links rising and lanes rising within a link, and each
/// writes what comes out by it into the two tables from their front; a sweep that is lent too few slots, or a table of fewer entries
/// than there are lanes on all links, is declined, by `TooFewSlots`.
///
/// The contract is what this project is for: on every kind of grid, whatever the calls, everything let in comes out, in order, a
/// step is possible exactly while something is on the grid, and the count of steps is known ahead.
///
/// Refuses what `Grid::blank` refuses, by `GridSize` and `ZeroAmount`, and else fails by `OutOfMemory` where there is no memory for the
/// grid or the answers; all that is lent is then as before.
pub fn replay<W: Ways + Drop, P: Policy<W>, T: Copy, R: Routing<W, P>>(
    heap: Global,
    ways: W,
    sizes: GridSizes,
    lent: &mut Lent<'_, T, R::Value>,
    calls: &[Call<T, R>],
) -> Result<Run<W, P, T>, MakeError>
    ensures run { let routes = finding R.searches R.finds ways in
        let C = conditions (P.kind ways) sizes routes lent.old in
        IfOk result (λ run. Replays C lent.old calls.now
        run.answers.items run.grid.tables lent.new) }
    ensures layout { IfOk result (λ run. run.grid.layout ≡ ways) }
    ensures slices { SameSlices lent.old lent.new }
    ensures values { SameBeyond (values_needed (P.kind ways).links sizes.lanes)
        lent.old.values.now lent.new.values.now }
    ensures marks { SameBeyond (marks_needed (P.kind ways).links sizes.lanes)
        lent.old.marks.now lent.new.marks.now }
    ensures refused { IfErr result (λ e. NotMade sizes.lanes sizes.depth sizes.capacity e
        × (lent.new ≡ lent.old)) }
{
    let mut grid = Grid::blank(heap, ways, sizes.lanes, sizes.depth, sizes.capacity)?;
    // a place for each answer ahead of the first call, so that want of memory stops no run halfway
    let mut answers = vec![in heap; Ok(Reply::Done); calls.len()]?;
    for k in 0..calls.len() {
        answers[k] = make(&mut grid, lent, &calls[k]);
    }
    Ok(Run { grid, answers })
}
