// The interface of policies that judge by any table.
ghost use Rattle.std.specs.Prelude.{◌≡◌};
ghost use Rattle.routes.specs.Checks.{verdict};
ghost use Rattle.routes.specs.Routes.{streams_of};

use crate::policy::Policy;
use layouts::ways::Ways;
use routes::declined::Declined;
use routes::hop::Hop;
use routes::judge::TableLimits;
use routes::stream::Request;

/// A policy that judges by a table of open streams of any length too, such as an empty one on ways without a grid.
pub trait TablePolicy<W: Ways>: Policy<W> {
    /// Judges as `judge` does; a number past the end of the table is not open.
    fn judge_by_table(
        ways: &W,
        limits: TableLimits<'_>,
        request: Request,
        hops: &[Hop],
    ) -> Result<(), Declined>
        ensures { result ≡ verdict ((Self.kind ways.now).judge limits.entry.lanes
            limits.entry.capacity (streams_of limits.entry.streams.now) request hops.now) };
}
