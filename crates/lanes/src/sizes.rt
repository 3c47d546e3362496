// Sizes in range, and how the lanes and the slots of a grid are counted.
ghost use Rattle.std.specs.Prelude.{◌≡◌, ◌*◌, ◌<◌, ◌≤◌, true, false, MatchResult};
ghost use Rattle.refusals.specs.declared.refusal.Refusal.TheVariants.{GridSize};
ghost use Rattle.lanes.specs.Sizes.{size_fits, holds, lane_of, lane_count, slot_count};

use crate::size::Size;
use refusals::refusal::Refusal;
use routes::hop::Hop;

impl Size {
    /// A size. Refuses lanes outside 1 to 4 and a depth outside 1 to 8 by `GridSize`.
    pub fn new(links: u16, lanes: u16, depth: u16) -> Result<Size, Refusal>
        ensures { MatchResult result (λ size. (size_fits lanes depth ≡ true) × (size.links ≡ links) × (size.lanes ≡ lanes) × (size.depth ≡ depth)) (λ e. (size_fits lanes depth ≡ false) × (e ≡ GridSize)) }
    {
        if lanes < 1 || lanes > 4 || depth < 1 || depth > 8 {
            return Err(Refusal::GridSize);
        }
        Ok(Size {
            links,
            lanes,
            depth,
        })
    }

    /// How many links there are.
    pub fn links(self) -> u16
        ensures { result ≡ self.links }
    {
        self.links
    }

    /// How many lanes a link has.
    pub fn lanes(self) -> u16
        ensures { result ≡ self.lanes }
    {
        self.lanes
    }

    /// How many items a lane holds.
    pub fn depth(self) -> u16
        ensures { result ≡ self.depth }
    {
        self.depth
    }

    /// How many item slots the lanes take.
    pub fn slots(self) -> usize
        ensures { result ≡ slot_count self }
    {
        self.lane_count() * self.depth as usize
    }

    /// Whether the link and the lane of a hop are there.
    pub fn holds(self, hop: Hop) -> bool
        ensures { result ≡ holds self hop }
    {
        hop.link < self.links && u16::from(hop.lane) < self.lanes
    }

    /// How many lanes there are, counted over all links.
    pub fn lane_count(self) -> usize
        ensures value { result ≡ lane_count self }
        ensures bound { result ≤ 4 * 65535 }
    {
        // casts, as in `lane`
        self.links as usize * self.lanes as usize
    }

    // The lane of a hop, counted over all links.
    pub(crate) fn lane(self, hop: Hop) -> usize
        requires { holds self hop ≡ true }
        ensures value { result ≡ lane_of self hop }
        ensures within { result < lane_count self }
    {
        // casts, since these compute in the proof and a call of `from` does not
        hop.link as usize * self.lanes as usize + hop.lane as usize
    }
}
