// Routes that are given.
ghost use Rattle.std.specs.Prelude.{false, vec_items};
ghost use Rattle.runs.specs.Routings.{FindsGiven};

use crate::routing::Routing;
use grid::grid::Grid;
use layouts::ways::Ways;
use policies::policy::Policy;
use routes::declined::Declined;
use routes::hop::Hop;
use routes::stream::Request;

/// A route of these hops, on every kind of grid.
#[derive(Drop)]
pub struct Given(pub Vec<Hop>);

/// Opens as `Grid::open` does, and touches nothing that is lent.
impl<W: Ways, P: Policy<W>> Routing<W, P> for Given {
    type Value = ();

    ghost searches = { λ _. false };

    ghost finds = { λ given ways asked found.
        FindsGiven (P.kind ways) (vec_items given.0) asked found };

    fn open(
        &self,
        grid: &mut Grid<W, P>,
        stream: u16,
        request: Request,
        _values: &mut [()],
        _marks: &mut [u16],
    ) -> Result<Option<usize>, Declined> {
        grid.open(stream, request, self.0.as_slice())?;
        Ok(None)
    }
}
