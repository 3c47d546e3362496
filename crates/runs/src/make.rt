// Making a call.
ghost use Rattle.std.specs.Prelude.{◌≡◌};
ghost use Rattle.search.specs.Finds.{values_needed, marks_needed, SameBeyond};
ghost use Rattle.grid.specs.Views.{view};
ghost use Rattle.plan.specs.Loads.{sizes_of};
ghost use Rattle.runs.specs.Lending.{SameSlices, out_tables};
ghost use Rattle.runs.specs.Routings.{finding};
ghost use Rattle.runs.specs.Meanings.{conditions, out_after};
ghost use Rattle.runs.specs.Making.{MakesCall, Shown};

use crate::call::{Answer, Call, Reply};
use crate::lent::Lent;
use crate::routing::Routing;
use grid::grid::Grid;
use layouts::ways::Ways;
use plan::load::load;
use policies::policy::Policy;

// Makes a call on a grid, with slots, scratch and tables lent.
pub(crate) fn make<W: Ways, P: Policy<W>, T: Copy, R: Routing<W, P>>(
    grid: &mut Grid<W, P>,
    lent: &mut Lent<'_, T, R::Value>,
    call: &Call<T, R>,
) -> Answer<T>
    requires { Shown grid.old.tables lent.old.slots.now }
    ensures made { let routes = finding R.searches R.finds grid.old.layout in
        let C = conditions (P.kind grid.old.layout) (sizes_of grid.old.tables) routes lent.old in
        MakesCall C grid.old.tables lent.old.slots.now call.now result
        grid.new.tables lent.new.slots.now }
    ensures tables { let routes = finding R.searches R.finds grid.old.layout in
        let C = conditions (P.kind grid.old.layout) (sizes_of grid.old.tables) routes lent.old in
        out_tables lent.new ≡ out_after C (view grid.old.tables lent.old.slots.now) call.now
        (out_tables lent.old) }
    ensures layout { grid.new.layout ≡ grid.old.layout }
    ensures shown { Shown grid.new.tables lent.new.slots.now }
    ensures slices { SameSlices lent.old lent.new }
    ensures values { SameBeyond
        (values_needed (P.kind grid.old.layout).links grid.old.tables.lanes.size.lanes)
        lent.old.values.now lent.new.values.now }
    ensures marks { SameBeyond
        (marks_needed (P.kind grid.old.layout).links grid.old.tables.lanes.size.lanes)
        lent.old.marks.now lent.new.marks.now }
{
    match call {
        Call::Open(stream, request, route) => {
            match route.open(grid, *stream, *request, lent.values, lent.marks)? {
                None => Ok(Reply::Done),
                Some(count) => Ok(Reply::Found(count)),
            }
        }
        Call::Close(stream) => {
            grid.close(*stream)?;
            Ok(Reply::Done)
        }
        Call::Send(stream, item) => {
            grid.send(lent.slots, *stream, *item)?;
            Ok(Reply::Done)
        }
        Call::Step(hop) => Ok(Reply::Stepped(grid.step(lent.slots, *hop)?)),
        Call::Sweep => {
            let told = grid.sweep(lent.slots, lent.streams, lent.items)?;
            Ok(Reply::Swept(told))
        }
        Call::Load(plan) => {
            let count = load(grid, plan.as_slice())?;
            Ok(Reply::Loaded(count))
        }
    }
}
