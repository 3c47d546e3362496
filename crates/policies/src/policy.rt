// The interface of all policies.
ghost use Rattle.std.specs.Prelude.{◌≡◌, ℕ};
ghost use Rattle.routes.specs.Checks.{verdict};
ghost use Rattle.routes.specs.Routes.{streams_of};
ghost use Rattle.model.specs.Kinds.{Kind, StandsOn, on_kind};
ghost use Rattle.model.specs.Safe.{Safe};
ghost use Rattle.model.specs.Reopening.{Reopens};

use layouts::ways::Ways;
use routes::declined::Declined;
use routes::hop::Hop;
use routes::judge::Limits;
use routes::stream::Request;

/// What streams a grid on some ways lets in: the policy makes the kind of the grid.
///
/// A policy judges a stream by its fields, its hops and the streams that are open. It owes that its grids never lock, and
/// that the plan of open streams can be loaded again; everything else about a grid is proved from that, once.
pub trait Policy<W: Ways> {
    // the kind of a grid on these ways
    ghost kind: { W → Kind };

    /// Judges a route of these hops for a stream of these fields: refuses what declines it on a grid of this kind, by the
    /// first refusal, with its first hop where one is told.
    fn judge(ways: &W, limits: Limits<'_>, request: Request, hops: &[Hop]) -> Result<(), Declined>
        ensures { result ≡ verdict ((kind ways.now).judge limits.entry.lanes limits.entry.capacity
            (streams_of limits.entry.streams.now) request hops.now) };

    // a grid of the kind has the tiles and the links of the ways
    ghost on_ways: { (ways : W) → StandsOn (W.topology ways) (kind ways) };

    // its items never lock
    ghost safe: { (ways : W) (lanes depth capacity slots : ℕ)
        → Safe (on_kind (kind ways) lanes depth capacity slots) };

    // its open streams can be opened again, in rising number
    ghost reopens: { (ways : W) (lanes capacity : ℕ) → Reopens (kind ways) lanes capacity };
}
