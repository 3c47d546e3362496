// Sending and stepping: the calls that move items.
ghost use Rattle.std.specs.Prelude.{◌≡◌, Ok, Err, length, MatchResult};
ghost use Rattle.model.specs.Kinds.{Kind};
ghost use Rattle.model.specs.Calls.{answer_of, done, sends, steps, open_stream};
ghost use Rattle.model.specs.Grid.{next_hop, route_of};
ghost use Rattle.grid.specs.Views.{streams_in};
ghost use Rattle.grid.specs.Makes.{step_answer, Makes, Starts};

use crate::step::Step;
use crate::streams::next_hop;
use crate::tables::Tables;
use refusals::refusal::Refusal;
use routes::hop::Hop;

impl Tables {
    // The first hop of an open stream.
    fn first_hop(&self, stream: u16) -> Result<Hop, Refusal>
        ensures { MatchResult result (λ h. Starts self.now stream h)
            (λ e. open_stream (streams_in self.now) stream ≡ Err e) }
    {
        let stream = self.stream(stream)?;
        Ok(stream.route.hops()[0])
    }

    // The hop that follows the one over a link in the route of a stream, if it is open.
    fn next_hop(&self, stream: u16, link: u16) -> Option<Hop>
        ensures { result ≡ next_hop link (route_of (streams_in self.now stream)) }
    {
        let stream = self.stream(stream).ok()?;
        next_hop(stream.route.hops(), link)
    }

    // Puts an item at the back of the lane of its stream's first hop.
    pub(crate) fn send<T: Copy>(
        &mut self,
        slots: &mut [T],
        stream: u16,
        item: T,
    ) -> Result<(), Refusal>
        ensures made { (k : Kind) → k.links ≡ self.old.lanes.size.links
            → Makes k self.old slots.old (sends stream item) (answer_of (λ _. done) result)
            self.new slots.new }
        ensures streams { self.new.streams ≡ self.old.streams }
    {
        if slots.len() < self.lanes.size().slots() {
            return Err(Refusal::TooFewSlots);
        }
        let first = self.first_hop(stream)?;
        self.lanes.push(slots, first, stream, item)
    }

    // Takes the front off a lane, and out of the grid or on to the next hop of its route.
    pub(crate) fn step<T: Copy>(&mut self, slots: &mut [T], hop: Hop) -> Result<Step<T>, Refusal>
        ensures made { (k : Kind) → k.links ≡ self.old.lanes.size.links
            → Makes k self.old slots.old (steps hop.link hop.lane) (answer_of step_answer result)
            self.new slots.new }
        ensures streams { self.new.streams ≡ self.old.streams }
    {
        let (stream, _) = self.lanes.front(slots, hop)?;
        match self.next_hop(stream, hop.link) {
            Some(next) => Ok(Step::Moved(self.lanes.shift(slots, hop, next)?)),
            None => {
                let (stream, item) = self.lanes.pop(slots, hop)?;
                Ok(Step::Out(stream, item))
            }
        }
    }
}
