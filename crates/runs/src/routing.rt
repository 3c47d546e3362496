// How an opening comes by its route.
ghost use Rattle.std.specs.Prelude.{◌≡◌, Bool, List, Result};
ghost use Rattle.routes.specs.declared.declined.Declined.{Declined as Declined_};
ghost use Rattle.routes.specs.declared.hop.Hop.{Hop as Hop_};
ghost use Rattle.search.specs.Finds.{values_needed, marks_needed, SameBeyond};
ghost use Rattle.runs.specs.Routings.{Asked, asked_of, OpensBy};

use grid::grid::Grid;
use layouts::ways::Ways;
use policies::policy::Policy;
use routes::declined::Declined;
use routes::stream::Request;

/// How an opening comes by the route of its stream, on grids on some ways by a policy: its route is given, or searched for.
///
/// A routing is known by what it finds: the hops on which it may open a stream, or what declines it.
pub trait Routing<W: Ways, P: Policy<W>> {
    /// The kind of value that a search is lent.
    type Value;

    // whether the route is searched for
    ghost searches: { Self → Bool };

    // the hops on which it may open a stream, or what declines it
    ghost finds: { Self → W → Asked → Result (List Hop_) Declined_ → Type 0 };

    /// Opens a stream on a route that the routing finds. Answers the count of its hops where it was searched for. Which of several
    /// routes that may be found is taken is left open, and so is what is in the scratch of a search afterwards; what is lent beyond
    /// it is not touched.
    ///
    /// Refuses by what declines a stream on the given route, or the search for one.
    fn open(
        &self,
        grid: &mut Grid<W, P>,
        stream: u16,
        request: Request,
        values: &mut [Self::Value],
        marks: &mut [u16],
    ) -> Result<Option<usize>, Declined>
        ensures made { let asked = asked_of grid.old.tables stream request values.old marks.old in
            OpensBy (searches self.now) (finds self.now grid.old.layout asked)
            (P.kind grid.old.layout) grid.old.tables asked result grid.new.tables }
        ensures layout { grid.new.layout ≡ grid.old.layout }
        ensures values { SameBeyond
            (values_needed (P.kind grid.old.layout).links grid.old.tables.lanes.size.lanes)
            values.old values.new }
        ensures marks { SameBeyond
            (marks_needed (P.kind grid.old.layout).links grid.old.tables.lanes.size.lanes)
            marks.old marks.new };
}
