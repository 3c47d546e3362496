// The load of a link.
ghost use Rattle.std.specs.Prelude.{◌≡◌, ◌≤◌};
ghost use Rattle.std.specs.Option.{option_map};
ghost use Rattle.routes.specs.Routes.{stream_of, streams_of};
ghost use Rattle.routes.specs.Loads.{share, load};

use crate::stream::{Stream, uses_link};

// What an entry of the stream table adds to the load of a link.
fn share_of(entry: &Option<Stream>, link: u16) -> u32
    ensures value { result ≡ share link (option_map stream_of entry.now) }
    ensures bound { result ≤ 65535 }
{
    match entry {
        Some(stream) if uses_link(stream.route.hops(), link) => u32::from(stream.request.demand),
        _ => 0,
    }
}

/// The load of a link: the sum of the demands of all open streams whose routes use it.
pub fn link_load(streams: &[Option<Stream>; 64], link: u16) -> u32
    ensures { result ≡ load (streams_of streams.now) link }
{
    link_load_by_table(streams, link)
}

// A loop over the table's entries, and in `uses_link` over the hops of each, by docs/DECISIONS.md ("Forms").
/// The same by a table of any length. A number past its end is not open, and entries past the 64th do not count.
pub fn link_load_by_table(streams: &[Option<Stream>], link: u16) -> u32
    ensures { result ≡ load (streams_of streams.now) link }
{
    let mut sum = 0;
    for entry in &streams[..streams.len().min(64)] {
        sum += share_of(entry, link);
    }
    sum
}
