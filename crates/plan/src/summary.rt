// What a grid bears.
ghost use Rattle.std.specs.Prelude.{◌≡◌};
ghost use Rattle.routes.specs.Routes.{streams_of};
ghost use Rattle.routes.specs.Loads.{load};
ghost use Rattle.grid.specs.Views.{streams_in};
ghost use Rattle.plan.specs.Plans.{open_streams};
ghost use Rattle.plan.specs.Summaries.{hop_count, largest_below, summary_of};

use crate::line::Summary;
use crate::listed::open_count;
use grid::grid::Grid;
use layouts::ways::Ways;
use policies::policy::Policy;
use routes::load::link_load;
use routes::stream::Stream;

// How many hops the routes of the open streams have together.
fn hop_count(streams: &[Option<Stream>; 64]) -> usize
    ensures { result ≡ hop_count (open_streams (streams_of streams.now)) }
{
    let mut count = 0;
    for entry in streams {
        let Some(stream) = entry else { continue };
        count += stream.route.hops().len();
    }
    count
}

// The largest load of so many links.
fn largest_load(streams: &[Option<Stream>; 64], links: u16) -> u32
    ensures { result ≡ largest_below links (load (streams_of streams.now)) }
{
    let mut largest = 0;
    for link in 0..links {
        largest = largest.max(link_load(streams, link));
    }
    largest
}

/// What a grid bears: how many streams are open, how many hops their routes have together, and the largest load of a link.
pub fn summary<W: Ways, P: Policy<W>>(grid: &Grid<W, P>) -> Summary
    ensures { result
        ≡ summary_of (W.topology grid.now.layout).links (streams_in grid.now.tables) }
{
    let streams = grid.streams();
    Summary {
        streams: open_count(streams),
        hops: hop_count(streams),
        load: largest_load(streams, grid.layout().links()),
    }
}
