// Opening and closing streams.
ghost use Rattle.std.specs.Prelude.{◌≡◌};
ghost use Rattle.model.specs.Calls.{answer_of, done, opens, closes};
ghost use Rattle.grid.specs.Makes.{hop_answer, Accepts, Edits};

use crate::grid::Grid;
use layouts::ways::Ways;
use policies::policy::Policy;
use refusals::refusal::Refusal;
use routes::declined::Declined;
use routes::hop::Hop;
use routes::route::Route;
use routes::stream::{Request, Stream};

impl<W: Ways, P: Policy<W>> Grid<W, P> {
    // The route of these hops, where a stream of these fields may take it.
    fn accepted(&self, request: Request, hops: &[Hop]) -> Result<Route, Declined>
        ensures { Accepts (P.kind self.now.layout) self.now.tables request hops.now result }
    {
        P::judge(&self.layout, self.tables.limits(), request, hops)?;
        Ok(Route::new(hops)?)
    }

    /// Opens a stream on a route of these hops.
    ///
    /// Refuses a number above 63 by `NoSuchStream`, an open stream by `AlreadyOpen`, and then what the
    /// policy refuses of its fields and hops, by the streams that are open: by rules what `judge` does.
    pub fn open(&mut self, stream: u16, request: Request, hops: &[Hop]) -> Result<(), Declined>
        ensures made { Edits (P.kind self.old.layout) self.old.tables
            (opens stream request hops.now) (hop_answer result) self.new.tables }
        ensures layout { self.new.layout ≡ self.old.layout }
    {
        self.tables.vacant(stream)?;
        let route = self.accepted(request, hops)?;
        self.tables.put(stream, Some(Stream { request, route }));
        Ok(())
    }

    /// Closes a stream.
    ///
    /// Refuses a number above 63 by `NoSuchStream`, a stream that is not open by `NotOpen`, and one that has items on the
    /// grid by `ItemsOnGrid`.
    pub fn close(&mut self, stream: u16) -> Result<(), Refusal>
        ensures made { Edits (P.kind self.old.layout) self.old.tables (closes stream)
            (answer_of (λ _. done) result) self.new.tables }
        ensures layout { self.new.layout ≡ self.old.layout }
    {
        self.tables.stream(stream)?;
        if self.tables.lanes.items_of(stream) > 0 {
            return Err(Refusal::ItemsOnGrid);
        }
        self.tables.put(stream, None);
        Ok(())
    }
}
