// Which items the lanes contain, and how many.
ghost use Rattle.std.specs.Prelude.{◌≡◌, ◌<◌, ◌≤◌, Some, ◌==◌, count_by, slice_get};
ghost use Rattle.std.specs.Option.{option_map};
ghost use Rattle.model.specs.Sums.{item_count, item_count_of};
ghost use Rattle.model.specs.Questions.{count_in};
ghost use Rattle.lanes.specs.Sizes.{lane_count, setting_of};
ghost use Rattle.lanes.specs.Queues.{ring_at, outline_at, outline};

use crate::tables::Lanes;
use refusals::refusal::Refusal;
use routes::hop::Hop;

impl Lanes {
    /// How many items the lane of a hop contains. Refuses a link or a lane that is not there by `OffGrid`.
    pub fn count(&self, hop: Hop) -> Result<u16, Refusal>
        ensures { result ≡ count_in (setting_of self.now.size 0) (outline self.now) hop }
    {
        if !self.size.holds(hop) {
            return Err(Refusal::OffGrid);
        }
        Ok(self.rings[self.size.lane(hop)].count)
    }

    /// How many items all lanes contain.
    #[tactic(auto, using(crate::proofs::Items::outline_length))]
    pub fn items(&self) -> usize
        ensures { result ≡ item_count (setting_of self.now.size 0) (outline self.now) }
    {
        let mut items = 0;
        for ring in &self.rings {
            items += usize::from(ring.count);
        }
        items
    }

    // The stream of the item that stands so many items behind the front of lane k, where there is one.
    fn stream_in(&self, k: usize, behind: u16) -> u16
        requires lane { k < lane_count self.now.size }
        requires some { behind < (ring_at self.now k).count }
        ensures { slice_get (outline_at self.now k) behind ≡ Some (result, tt) }
    {
        let depth = self.size.depth;
        // casts, as in `enter`
        let slot = k * depth as usize + ((self.rings[k].first + behind) % depth) as usize;
        self.owners[slot]
    }

    /// The stream of the item that stands so many items behind the front of the lane of a hop, at 0 that of the front. `None`
    /// where the link or the lane is not there, and where the lane has no such item.
    pub fn stream_at(&self, hop: Hop, behind: u16) -> Option<u16>
        ensures { result ≡ option_map (λ i. i.0)
            (slice_get ((outline self.now).contents hop.link hop.lane) behind) }
    {
        if !self.size.holds(hop) {
            return None;
        }
        let k = self.size.lane(hop);
        if behind >= self.rings[k].count {
            return None;
        }
        Some(self.stream_in(k, behind))
    }

    // How many items of a stream lane k contains.
    fn items_in(&self, k: usize, stream: u16) -> usize
        requires { k < lane_count self.now.size }
        ensures value { result ≡ count_by (λ i. i.0 == stream) (outline_at self.now k) }
        ensures bound { result ≤ 8 }
    {
        let mut items = 0;
        for behind in 0..self.rings[k].count {
            if self.stream_in(k, behind) == stream {
                items += 1;
            }
        }
        items
    }

    /// How many items of a stream all lanes contain.
    pub fn items_of(&self, stream: u16) -> usize
        ensures { result ≡ item_count_of (setting_of self.now.size 0) (outline self.now) stream }
    {
        let mut items = 0;
        for k in 0..self.size.lane_count() {
            items += self.items_in(k, stream);
        }
        items
    }
}
