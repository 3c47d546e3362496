// Answers that are short, and how each is written.
ghost use Rattle.std.specs.Prelude.{Some};
ghost use Rattle.session.specs.Texts.{brief_text};

use lanes::strip::Strip;
use layouts::turn::Turn;
use plan::line::Summary;
use routes::stream::Request;
use std::fmt;

/// An answer that fits into a few numbers.
#[derive(Clone, Copy, PartialEq, Eq, Debug)]
pub enum Brief {
    /// A mesh was made: its counts of tiles and links.
    Made(u16, u16),
    /// The start and the end of a link.
    Ends(u16, u16),
    /// What is told of two links in a row.
    Turn(Turn),
    /// The route is acceptable, the grid is made, or the call is done.
    Accepted,
    /// An item of this stream went on to its next hop.
    Moved(u16),
    /// This strip of this stream left the grid.
    Out(u16, Strip),
    /// What a stream asked for.
    Fields(Request),
    /// The load of a link.
    Load(u32),
    /// A count of items.
    Count(usize),
    /// How many hops are ahead.
    Ahead(usize),
    /// By a sweep or a drain so many steps went, and so many items came out.
    CameOut(usize, usize),
    /// A plan was loaded: how many records it has.
    Loaded(usize),
    /// What a grid bears once a plan is loaded on it.
    Checked(Summary),
    /// What the rehearsals came to together is to be told.
    Report,
    /// The open streams are to be told.
    Streams,
    /// The loads are to be told.
    Picture,
    /// The words of the line are to be told.
    Say,
}

/// The line that tells the answer.
impl fmt::Display for Brief {
    ghost output = { λ brief. Some (brief_text brief) };

    fn fmt<W: fmt::Write>(&self, f: &mut fmt::Formatter<W>) -> fmt::Result {
        match self {
            Brief::Made(tiles, links) => write!(f, "ok {tiles} {links}"),
            Brief::Ends(start, end) => write!(f, "ok {start} {end}"),
            Brief::Turn(turn) => write!(f, "{turn}"),
            Brief::Accepted => write!(f, "ok"),
            Brief::Moved(stream) => write!(f, "moved {stream}"),
            Brief::Out(
                stream,
                Strip {
                    fragment,
                    band,
                    row,
                },
            ) => { write!(f, "out {stream} {fragment} {band} {row}") }
            Brief::Fields(
                Request {
                    source,
                    target,
                    demand,
                },
            ) => { write!(f, "ok {source} {target} {demand}") }
            Brief::Load(load) => write!(f, "ok {load}"),
            Brief::Count(count) => write!(f, "ok {count}"),
            Brief::Ahead(hops) => write!(f, "ok {hops}"),
            Brief::CameOut(steps, items) => write!(f, "ok {steps} {items}"),
            Brief::Loaded(records) => write!(f, "ok {records}"),
            Brief::Checked(summary) => write!(f, "{summary}"),
            Brief::Report => write!(f, "report"),
            Brief::Streams => write!(f, "streams"),
            Brief::Picture => write!(f, "picture"),
            Brief::Say => write!(f, "say"),
        }
    }
}
