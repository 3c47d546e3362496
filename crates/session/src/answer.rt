// The planner's answers, and how each is written.
ghost use Rattle.std.specs.Prelude.{Some, flat_map};
ghost use Rattle.session.specs.Texts.{hop_text, byte_text, tally_lines, answer_text, out_lines};

use crate::brief::Brief;
use lanes::strip::Strip;
use rehearsal::rehearse::Rehearsal;
use rehearsal::tally::Tally;
use routes::hop::Hop;
use std::fmt;

/// The answer to a command.
#[derive(Clone, Copy, PartialEq, Eq, Debug)]
pub enum Answer {
    /// A short one.
    Brief(Brief),
    /// The hops of a route, at the front of a table, and their count.
    Route([Hop; 24], usize),
    /// The bytes of a plan, at the front of a table of as many as a plan can have, and their count.
    Written([u8; 3530], usize),
    /// What a rehearsal came to.
    Rehearsed(Rehearsal),
}

// Hops, each behind a blank.
#[derive(Clone, Copy)]
struct HopList<'a>(&'a [Hop]);

impl fmt::Display for HopList<'_> {
    ghost output = { λ list. Some (flat_map hop_text list.0.now) };

    fn fmt<W: fmt::Write>(&self, f: &mut fmt::Formatter<W>) -> fmt::Result {
        for Hop { link, lane } in self.0 {
            write!(f, " {link}.{lane}")?;
        }
        Ok(())
    }
}

// Bytes in base sixteen.
#[derive(Clone, Copy)]
struct ByteList<'a>(&'a [u8]);

impl fmt::Display for ByteList<'_> {
    ghost output = { λ list. Some (flat_map byte_text list.0.now) };

    fn fmt<W: fmt::Write>(&self, f: &mut fmt::Formatter<W>) -> fmt::Result {
        for &byte in self.0 {
            write!(f, "{byte:02X}")?;
        }
        Ok(())
    }
}

// What was seen of each stream, by its number, a line for each.
#[derive(Clone, Copy)]
struct TallyList<'a>(&'a [Option<Tally>; 64]);

impl fmt::Display for TallyList<'_> {
    ghost output = { λ list. Some (tally_lines list.0.now 64) };

    fn fmt<W: fmt::Write>(&self, f: &mut fmt::Formatter<W>) -> fmt::Result {
        for number in 0..64 {
            let Some(tally) = self.0[number] else {
                continue
            };
            let Tally {
                sent,
                out,
                in_order,
            } = tally;
            let order = if in_order { "in order" } else { "out of order" };
            write!(f, "stream {number} sent {sent} out {out} {order}\n")?;
        }
        Ok(())
    }
}

/// The line, or the lines, that tell the answer.
impl fmt::Display for Answer {
    ghost output = { λ answer. Some (answer_text answer) };

    fn fmt<W: fmt::Write>(&self, f: &mut fmt::Formatter<W>) -> fmt::Result {
        match self {
            Answer::Brief(brief) => fmt::Display::fmt(brief, f),
            Answer::Route(hops, count) => {
                write!(f, "ok {count}{}", HopList(&hops[..(*count).min(24)]))
            }
            Answer::Written(plan, count) => {
                write!(f, "ok {count} {}", ByteList(&plan[..(*count).min(3530)]))
            }
            Answer::Rehearsed(rehearsal) => {
                let tallies = TallyList(&rehearsal.tallies);
                write!(f, "{tallies}ok {} {}", rehearsal.steps, rehearsal.items)
            }
        }
    }
}

/// What came out by a sweep or a drain: the streams, and beside each its item.
#[derive(Clone, Copy)]
pub struct OutList<'a> {
    /// The number of each stream.
    pub streams: &'a [u16],
    /// The items.
    pub items: &'a [Strip],
}

/// A line `out STREAM FRAGMENT BAND ROW` for each item, as the answer to a step tells it, ended by a line feed.
impl fmt::Display for OutList<'_> {
    ghost output = { λ list. Some (out_lines list.streams.now list.items.now) };

    fn fmt<W: fmt::Write>(&self, f: &mut fmt::Formatter<W>) -> fmt::Result {
        for (stream, item) in self.streams.iter().zip(self.items) {
            write!(f, "{}\n", Brief::Out(*stream, *item))?;
        }
        Ok(())
    }
}
