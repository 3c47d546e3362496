// How many streams are open.
ghost use Rattle.std.specs.Prelude.{◌≡◌, ◌≤◌, length};
ghost use Rattle.routes.specs.Routes.{streams_of};
ghost use Rattle.plan.specs.Plans.{open_streams};

use routes::stream::Stream;

// How many streams are open.
pub(crate) fn open_count(streams: &[Option<Stream>; 64]) -> u16
    ensures value { result ≡ length (open_streams (streams_of streams.now)) }
    ensures few { result ≤ 64 }
{
    let mut count = 0;
    for entry in streams {
        let Some(_) = entry else { continue };
        count += 1;
    }
    count
}
