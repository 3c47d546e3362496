// The interface of all ways.
ghost use Rattle.std.specs.Prelude.{◌≡◌};
ghost use Rattle.layouts.specs.Layout.{Topology, WaysLaw, NoTiles};

/// Tiles and one-way links, each numbered from 0.
///
/// Ways are known by their topology, which is all that they answer. Every call takes every number and refuses none.
pub trait Ways {
    // what the ways answer
    ghost topology: { Self → Topology };

    /// The count of tiles, 1 to 64.
    fn tiles(&self) -> u16
        ensures { result ≡ (topology self.now).tiles };

    /// The count of links, 1 to 256.
    fn links(&self) -> u16
        ensures { result ≡ (topology self.now).links };

    // `start` and `end` tell 255 and not `None`: the law `no_tiles` and the planner's answers have that number.

    /// The tile that a link leaves, or 255 where there is no such link.
    fn start(&self, link: u16) -> u16
        ensures { result ≡ (topology self.now).start link };

    /// The tile that a link leads to, or 255 where there is no such link.
    fn end(&self, link: u16) -> u16
        ensures { result ≡ (topology self.now).end link };

    // the law of ways: the counts are within their bounds, and links lead from tile to tile
    ghost ways_law: { (ways : Self) → WaysLaw (topology ways) };

    // the answers for numbers that are no link's
    ghost no_tiles: { (ways : Self) → NoTiles (topology ways) };
}
