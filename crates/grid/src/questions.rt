// The questions, which change nothing.
ghost use Rattle.std.specs.Prelude.{◌≡◌};
ghost use Rattle.model.specs.Sums.{item_count, hops_ahead};
ghost use Rattle.model.specs.Questions.{fields_of, hops_of_stream, load_on, count_in};
ghost use Rattle.grid.specs.Views.{streams_in, outline, setting};
ghost use Rattle.grid.specs.Routes.{Puts};
ghost use Rattle.grid.specs.Grids.{setting_with, outline_of};

use crate::grid::Grid;
use lanes::size::Size;
use layouts::ways::Ways;
use policies::policy::Policy;
use refusals::refusal::Refusal;
use routes::hop::Hop;
use routes::load::link_load;
use routes::stream::{Request, Stream};

impl<W: Ways, P: Policy<W>> Grid<W, P> {
    /// The ways of the grid.
    pub fn layout(&self) -> &W
        ensures { result.now ≡ self.now.layout }
    {
        &self.layout
    }

    /// How many links there are, how many lanes a link has, and how many items a lane holds.
    pub fn size(&self) -> Size
        ensures { result ≡ self.now.tables.lanes.size }
    {
        self.tables.lanes.size()
    }

    /// How much demand each link can bear.
    pub fn capacity(&self) -> u16
        ensures { result ≡ self.now.tables.capacity }
    {
        self.tables.capacity
    }

    /// The open streams, by their numbers.
    pub fn streams(&self) -> &[Option<Stream>; 64]
        ensures { result.now ≡ self.now.tables.streams }
    {
        &self.tables.streams
    }

    /// What an open stream asked for. Refuses a number above 63 by `NoSuchStream`, and a stream that is not open by
    /// `NotOpen`.
    pub fn stream(&self, stream: u16) -> Result<Request, Refusal>
        ensures { result ≡ fields_of (streams_in self.now.tables) stream }
    {
        Ok(self.tables.stream(stream)?.request)
    }

    /// The route of an open stream: its hops are written into the table, from the front, and the rest of the table is not
    /// touched; answers their count. Refuses as `stream` does.
    pub fn route(&self, stream: u16, table: &mut [Hop; 24]) -> Result<usize, Refusal>
        ensures { Puts (hops_of_stream (streams_in self.now.tables) stream) table.old result
            table.new }
    {
        let route = self.tables.stream(stream)?.route;
        let hops = route.hops();
        table[..hops.len()].copy_from_slice(hops);
        Ok(hops.len())
    }

    /// The load of a link. Refuses a link that is not there by `OffGrid`.
    pub fn link_load(&self, link: u16) -> Result<u32, Refusal>
        ensures { result ≡ load_on (P.kind self.now.layout).links
            (streams_in self.now.tables) link }
    {
        if link >= self.layout.links() {
            return Err(Refusal::OffGrid);
        }
        Ok(link_load(&self.tables.streams, link))
    }

    /// How many items a lane contains. Refuses a link or a lane that is not there by `OffGrid`.
    pub fn count(&self, hop: Hop) -> Result<u16, Refusal>
        ensures { result ≡ count_in (setting (P.kind self.now.layout) self.now.tables 0)
            (outline self.now.tables) hop }
    {
        self.tables.lanes.count(hop)
    }

    /// How many items are on the grid.
    pub fn items(&self) -> usize
        ensures { result ≡ item_count (setting (P.kind self.now.layout) self.now.tables 0)
            (outline self.now.tables) }
    {
        self.tables.lanes.items()
    }

    /// How many hops are ahead, summed over the items on the grid: an item on hop k of n, counted from 0, has n − k ahead, and so
    /// 1 on its last hop.
    pub fn hops_ahead(&self) -> usize
        ensures { result ≡ hops_ahead (setting_with self.now 0) (outline_of self.now) }
    {
        self.tables.hops_ahead()
    }
}
