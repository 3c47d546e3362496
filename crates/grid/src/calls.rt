// The calls on a grid.
ghost use Rattle.std.specs.Prelude.{◌≡◌};
ghost use Rattle.model.specs.Calls.{answer_of, done, opens, closes, sends, steps};
ghost use Rattle.grid.specs.Makes.{step_answer, hop_answer, Makes, Edits};

use crate::grid::Grid;
use crate::step::Step;
use layouts::ways::Ways;
use policies::policy::Policy;
use refusals::refusal::Refusal;
use routes::hop::Hop;

impl<W: Ways, P: Policy<W>> Grid<W, P> {
    /// Puts an item at the back of the lane of its stream's first hop. The item is written into the slot of the lane's next
    /// place, and no other slot is touched; what a slot holds that no item stands in is left open.
    ///
    /// Refuses too few slots by `TooFewSlots`, a number above 63 by `NoSuchStream`, a stream that is not open by `NotOpen`,
    /// and a full lane by `LaneFull`.
    pub fn send<T: Copy>(&mut self, slots: &mut [T], stream: u16, item: T) -> Result<(), Refusal>
        ensures made { Makes (P.kind self.old.layout) self.old.tables slots.old (sends stream item)
            (answer_of (λ _. done) result) self.new.tables slots.new }
        ensures layout { self.new.layout ≡ self.old.layout }
    {
        self.tables.send(slots, stream, item)
    }

    /// Takes the front off a lane: out of the grid if this is the last hop of its route, else to the back of the next hop's
    /// lane, where it is written into the slot of that lane's next place; no other slot is touched.
    ///
    /// Refuses too few slots by `TooFewSlots`, a link or a lane that is not there by `OffGrid`, a lane with no item by
    /// `LaneEmpty`, and a front whose next lane is full by `Held`.
    pub fn step<T: Copy>(&mut self, slots: &mut [T], hop: Hop) -> Result<Step<T>, Refusal>
        ensures made { Makes (P.kind self.old.layout) self.old.tables slots.old
            (steps hop.link hop.lane) (answer_of step_answer result) self.new.tables slots.new }
        ensures layout { self.new.layout ≡ self.old.layout }
    {
        self.tables.step(slots, hop)
    }
}
