// How the tiles and links of a mesh are numbered.
ghost use Rattle.std.specs.Prelude.{◌≡◌, ◌+◌, ◌*◌, ◌<◌, ◌≤◌, MatchResult};
ghost use Rattle.refusals.specs.declared.refusal.Refusal.TheVariants.{MeshSize};
ghost use Rattle.layouts.specs.Links.{InRange, level, upright, link_count, link_at, span_at};

use crate::direction::Direction;
use crate::link::{MeshLink, Span};
use crate::size::Size;
use refusals::refusal::Refusal;

impl Size {
    /// A size. Refuses a width or a height outside 2 to 8 by `MeshSize`.
    pub(crate) fn new(width: u16, height: u16) -> Result<Size, Refusal>
        ensures { MatchResult result (λ s. (s.width ≡ width) × (s.height ≡ height)) (λ e. (e ≡ MeshSize) × (InRange width height → ⊥)) }
    {
        if width < 2 || width > 8 || height < 2 || height > 8 {
            return Err(Refusal::MeshSize);
        }
        Ok(Size { width, height })
    }

    /// How many links lead east, and how many lead north; as many lead back.
    fn block_lengths(&self) -> (u16, u16)
        ensures value { result ≡ (level self.now.width self.now.height, upright self.now.width self.now.height) }
        ensures bounds { (result.0 ≤ 56) × (result.1 ≤ 56) }
    {
        (
            self.height * (self.width - 1),
            self.width * (self.height - 1),
        )
    }

    /// The count of tiles.
    pub(crate) fn tiles(&self) -> u16
        ensures { result ≡ self.now.width * self.now.height }
    {
        self.width * self.height
    }

    /// The count of links.
    pub(crate) fn links(&self) -> u16
        ensures { result ≡ link_count self.now.width self.now.height }
    {
        let (level, upright) = self.block_lengths();
        2 * level + 2 * upright
    }

    /// The link of a number, if there is one: first the links east, then west, north and south.
    fn link(&self, number: u16) -> Option<MeshLink>
        ensures { result ≡ link_at self.now.width self.now.height number }
    {
        let (level, upright) = self.block_lengths();
        let stretches = self.width - 1;
        let (direction, x, y) = if number < level {
            (Direction::East, number % stretches, number / stretches)
        } else if number < 2 * level {
            let back = number - level;
            (Direction::West, back % stretches + 1, back / stretches)
        } else if number < 2 * level + upright {
            let up = number - 2 * level;
            (Direction::North, up % self.width, up / self.width)
        } else if number < self.links() {
            let down = number - (2 * level + upright);
            (Direction::South, down % self.width, down / self.width + 1)
        } else {
            return None;
        };
        Some(MeshLink { direction, x, y })
    }

    /// The link of a number with the tiles that it joins, if there is one.
    #[tactic(auto, using(crate::proofs::Starts::start_small, crate::proofs::Starts::start_south))]
    pub(crate) fn span(&self, number: u16) -> Option<Span>
        ensures { result ≡ span_at self.now.width self.now.height number }
    {
        let link = self.link(number)?;
        let start = link.y * self.width + link.x;
        let end = match link.direction {
            Direction::East => start + 1,
            Direction::West => start - 1,
            Direction::North => start + self.width,
            Direction::South => start - self.width,
        };
        Some(Span { link, start, end })
    }
}
