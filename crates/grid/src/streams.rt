// The table of streams.
ghost use Rattle.std.specs.Prelude.{◌≡◌, ◌<◌, true, Some, None, IfOk, slice_index_or};
ghost use Rattle.std.specs.List.{list_all};
ghost use Rattle.std.specs.Option.{option_map};
ghost use Rattle.std.specs.Result.{result_map_both};
ghost use Rattle.routes.specs.Routes.{hops_of, stream_of};
ghost use Rattle.routes.specs.Loads.{stream_count};
ghost use Rattle.model.specs.Grid.{assign, next_hop};
ghost use Rattle.model.specs.Calls.{open_stream, vacancy};
ghost use Rattle.lanes.specs.Sizes.{holds};
ghost use Rattle.grid.specs.Views.{streams_in};

use crate::tables::Tables;
use refusals::refusal::Refusal;
use routes::hop::Hop;
use routes::judge::Limits;
use routes::stream::Stream;

// The hop that follows the one over a link. A loop with a word for "the last hop was that one", since no chain of the
// library's iterators says so plainly.
pub(crate) fn next_hop(hops: &[Hop], link: u16) -> Option<Hop>
    ensures { result ≡ next_hop link hops.now }
{
    let mut reached = false;
    for hop in hops {
        if reached {
            return Some(*hop);
        }
        reached = hop.link == link;
    }
    None
}

impl Tables {
    // What routes are judged by.
    pub(crate) fn limits(&self) -> Limits<'_>
        ensures lanes { result.lanes ≡ self.now.lanes.size.lanes }
        ensures capacity { result.capacity ≡ self.now.capacity }
        ensures streams { result.streams.now ≡ self.now.streams }
    {
        Limits {
            lanes: self.lanes.size().lanes(),
            capacity: self.capacity,
            streams: &self.streams,
        }
    }

    // The open stream of a number.
    pub(crate) fn stream(&self, stream: u16) -> Result<Stream, Refusal>
        ensures value { result_map_both stream_of (λ e. e) result ≡ open_stream
            (streams_in self.now) stream }
        ensures entry { IfOk result (λ s. slice_index_or self.now.streams stream None ≡ Some s) }
    {
        if stream >= 64 {
            return Err(Refusal::NoSuchStream);
        }
        self.streams[usize::from(stream)].ok_or(Refusal::NotOpen)
    }

    // That a stream of a number can be opened.
    pub(crate) fn vacant(&self, stream: u16) -> Result<(), Refusal>
        ensures { result ≡ vacancy (streams_in self.now) stream }
    {
        if stream >= 64 {
            return Err(Refusal::NoSuchStream);
        }
        match self.streams[usize::from(stream)] {
            Some(_) => Err(Refusal::AlreadyOpen),
            None => Ok(()),
        }
    }

    // Puts an entry into the table of streams, for a stream whose hops are there or for none.
    pub(crate) fn put(&mut self, stream: u16, entry: Option<Stream>)
        requires number { stream < stream_count }
        requires placed { (s : Stream) → entry ≡ Some s → list_all (holds self.old.lanes.size)
            (hops_of s.route) ≡ true }
        ensures streams { streams_in self.new ≡ assign (streams_in self.old) stream
            (option_map stream_of entry) }
        ensures lanes { self.new.lanes ≡ self.old.lanes }
        ensures capacity { self.new.capacity ≡ self.old.capacity }
    {
        self.streams[usize::from(stream)] = entry;
    }
}
