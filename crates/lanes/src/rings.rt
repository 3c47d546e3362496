// The ring of one lane: an item at its back, and its front. That lane k is there, with slots enough for all lanes, is asked
// at each call: the slots are lent for one call, so no type that outlives a call can hold it.
ghost use Rattle.std.specs.Prelude.{◌≡◌, ◌<◌, ◌∷◌, drop};
ghost use Rattle.lanes.specs.Queues.{ring_at, queue_at, HasLane, Enters, Leaves};

use crate::ring::Ring;
use crate::tables::Lanes;

impl Lanes {
    // Puts an item of a stream at the back of lane k, which is not full.
    #[tactic(auto, using(crate::proofs::Queues::back_in))]
    pub(crate) fn enter<T: Copy>(&mut self, slots: &mut [T], k: usize, stream: u16, item: T)
        requires lane { HasLane self.old slots.old k }
        requires room { (ring_at self.old k).count < self.old.size.depth }
        ensures { Enters self.old slots.old k (stream, item) self.new slots.new }
    {
        let depth = self.size.depth;
        let ring = self.rings[k];
        // casts, since these compute in the proof and a call of `from` does not
        let slot = k * depth as usize + ((ring.first + ring.count) % depth) as usize;
        slots[slot] = item;
        self.owners[slot] = stream;
        self.rings[k] = Ring {
            first: ring.first,
            count: ring.count + 1,
        };
    }

    // The front of lane k, which is not empty: its stream and the item.
    #[tactic(auto, using(crate::proofs::Queues::front_in))]
    pub(crate) fn first<T: Copy>(&self, slots: &[T], k: usize) -> (u16, T)
        requires lane { HasLane self.now slots.now k }
        requires some { 0 < (ring_at self.now k).count }
        ensures { queue_at self.now slots.now k ≡ result ∷ drop 1 (queue_at self.now slots.now k) }
    {
        // casts, as in `enter`
        let slot = k * self.size.depth as usize + self.rings[k].first as usize;
        (self.owners[slot], slots[slot])
    }

    // Takes the front off lane k, which is not empty.
    pub(crate) fn leave<T: Copy>(&mut self, slots: &[T], k: usize) -> (u16, T)
        requires lane { HasLane self.old slots.now k }
        requires some { 0 < (ring_at self.old k).count }
        ensures { Leaves self.old slots.now k result self.new }
    {
        let front = self.first(slots, k);
        let ring = self.rings[k];
        self.rings[k] = Ring {
            first: (ring.first + 1) % self.size.depth,
            count: ring.count - 1,
        };
        front
    }
}
