// The calls on the lanes: each names lanes by hops, and is lent the item slots.
ghost use Rattle.std.specs.Prelude.{◌≡◌, Some, MatchResult};
ghost use Rattle.routes.specs.Checks.{no_hop};
ghost use Rattle.model.specs.Calls.{lane_refusal};
ghost use Rattle.lanes.specs.Sizes.{setting_of};
ghost use Rattle.lanes.specs.Calls.{Found, TellsFront, Pushes, Pops, Shifts};

use crate::tables::Lanes;
use refusals::refusal::Refusal;
use routes::hop::Hop;

impl Lanes {
    // The lane of a hop, counted over all links, where so many slots are enough for all lanes.
    #[tactic(auto, using(crate::proofs::LaneChecks::lane_checks))]
    fn lane(&self, slots: usize, hop: Hop) -> Result<usize, Refusal>
        ensures { MatchResult result (λ k. Found self.now.size slots hop k) (λ e. lane_refusal (setting_of self.now.size slots) hop ≡ Some (no_hop e)) }
    {
        if slots < self.size.slots() {
            return Err(Refusal::TooFewSlots);
        }
        if !self.size.holds(hop) {
            return Err(Refusal::OffGrid);
        }
        Ok(self.size.lane(hop))
    }

    /// The front of a lane, its stream and the item, which stays. Refuses too few slots by `TooFewSlots`, a link or a lane
    /// that is not there by `OffGrid`, and a lane with no item by `LaneEmpty`.
    pub fn front<T: Copy>(&self, slots: &[T], hop: Hop) -> Result<(u16, T), Refusal>
        ensures { TellsFront self.now slots.now hop result }
    {
        let k = self.lane(slots.len(), hop)?;
        if self.rings[k].count == 0 {
            return Err(Refusal::LaneEmpty);
        }
        Ok(self.first(slots, k))
    }

    /// Puts an item of a stream at the back of a lane. Refuses too few slots by `TooFewSlots`, a link or a lane that is not
    /// there by `OffGrid`, and a full lane by `LaneFull`.
    pub fn push<T: Copy>(
        &mut self,
        slots: &mut [T],
        hop: Hop,
        stream: u16,
        item: T,
    ) -> Result<(), Refusal>
        ensures { Pushes self.old slots.old hop (stream, item) result self.new slots.new }
    {
        let k = self.lane(slots.len(), hop)?;
        if self.rings[k].count >= self.size.depth {
            return Err(Refusal::LaneFull);
        }
        self.enter(slots, k, stream, item);
        Ok(())
    }

    /// Takes the front off a lane and hands it out, its stream and the item. Refuses as `front` does.
    pub fn pop<T: Copy>(&mut self, slots: &[T], hop: Hop) -> Result<(u16, T), Refusal>
        ensures { Pops self.old slots.now hop result self.new }
    {
        let k = self.lane(slots.len(), hop)?;
        if self.rings[k].count == 0 {
            return Err(Refusal::LaneEmpty);
        }
        Ok(self.leave(slots, k))
    }

    /// Takes the front off a lane and puts it at the back of another; answers its stream. Refuses too few slots by
    /// `TooFewSlots`, a link or a lane of either hop that is not there by `OffGrid`, a lane with no item by `LaneEmpty`, and a
    /// full lane to go to by `Held`.
    pub fn shift<T: Copy>(&mut self, slots: &mut [T], from: Hop, to: Hop) -> Result<u16, Refusal>
        ensures { Shifts self.old slots.old from to result self.new slots.new }
    {
        let k = self.lane(slots.len(), from)?;
        let target = self.lane(slots.len(), to)?;
        if self.rings[k].count == 0 {
            return Err(Refusal::LaneEmpty);
        }
        if self.rings[target].count >= self.size.depth {
            return Err(Refusal::Held);
        }
        let (stream, item) = self.leave(slots, k);
        self.enter(slots, target, stream, item);
        Ok(stream)
    }
}
