// Routes that are given, or searched for by a measure.
ghost use Rattle.layouts.specs.Layout.{meaning_by};
ghost use Rattle.runs.specs.Routings.{is_best, FindsGivenOrBest};

use crate::routing::Routing;
use grid::grid::Grid;
use layouts::rules::Rules;
use policies::climbing::Climbing;
use routes::declined::Declined;
use routes::hop::Hop;
use routes::stream::Request;
use search::measure::Measure;

/// A route on grids by the rules of a layout. Openings of one run can have several measures where their type holds several, as
/// `Choice` does.
#[derive(Drop)]
pub enum GivenOrBest<M> {
    /// A route of these hops.
    Given(Vec<Hop>),
    /// A best route by a measure.
    Best(M),
}

/// Opens a stream on a given route as `Grid::open` does, and on a best one as `Grid::seek` does.
impl<L: Rules, M: Measure> Routing<L, Climbing> for GivenOrBest<M> {
    type Value = M::Value;

    ghost searches = { is_best };

    ghost finds = { λ route layout asked found. FindsGivenOrBest (λ measure. M.scale measure)
        (meaning_by L.topology L.turns layout) route asked found };

    fn open(
        &self,
        grid: &mut Grid<L>,
        stream: u16,
        request: Request,
        values: &mut [M::Value],
        marks: &mut [u16],
    ) -> Result<Option<usize>, Declined> {
        match self {
            GivenOrBest::Given(hops) => {
                grid.open(stream, request, hops.as_slice())?;
                Ok(None)
            }
            GivenOrBest::Best(measure) => {
                let count = grid.seek(stream, request, measure, values, marks)?;
                Ok(Some(count))
            }
        }
    }
}
