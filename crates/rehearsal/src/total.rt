// What several rehearsals come to together.
ghost use Rattle.std.specs.Prelude.{◌≡◌, Some};
ghost use Rattle.rehearsal.specs.Totals.{strips_sent, sent_together, total_with, known_text, strips_text, steps_text, total_text};

use crate::rehearse::Rehearsal;
use crate::tally::Tally;
use std::fmt;

/// What several rehearsals come to together.
#[derive(Clone, Copy, PartialEq, Eq, Debug)]
pub struct Total {
    /// How many strips went in.
    pub sent: u64,
    /// How many came out.
    pub out: u64,
    /// How many steps went.
    pub steps: u64,
    /// How many steps were known ahead.
    pub ahead: u64,
}

// How many strips a stream sent.
fn strips_sent(entry: Option<Tally>) -> u16
    ensures { result ≡ strips_sent entry }
{
    match entry {
        Some(tally) => tally.sent,
        None => 0,
    }
}

// How many strips all streams sent together.
fn sent_together(tallies: &[Option<Tally>; 64]) -> u64
    ensures { result ≡ sent_together tallies.now }
{
    let mut sent = 0;
    for entry in tallies {
        sent += u64::from(strips_sent(*entry));
    }
    sent
}

// Whether as many steps went as were known ahead, in words.
fn known(as_known: bool) -> &'static str
    ensures { result.now ≡ known_text as_known }
{
    if as_known {
        "the number"
    } else {
        "not the number"
    }
}

impl Total {
    /// Of no rehearsal.
    pub const NONE: Total = Total {
        sent: 0,
        out: 0,
        steps: 0,
        ahead: 0,
    };

    /// With one rehearsal more; each number is held at the largest of 64 bits.
    pub fn and(self, rehearsal: &Rehearsal) -> Total
        ensures { result ≡ total_with self rehearsal.now }
    {
        Total {
            sent: self.sent.saturating_add(sent_together(&rehearsal.tallies)),
            out: self.out.saturating_add(rehearsal.items),
            steps: self.steps.saturating_add(rehearsal.steps),
            ahead: self.ahead.saturating_add(rehearsal.ahead),
        }
    }
}

// How many strips went in, and how many came out.
#[derive(Clone, Copy)]
struct Strips {
    sent: u64,
    out: u64,
}

impl fmt::Display for Strips {
    ghost output = { λ strips. Some (strips_text strips.sent strips.out) };

    fn fmt<W: fmt::Write>(&self, f: &mut fmt::Formatter<W>) -> fmt::Result {
        let Strips { sent, out } = self;
        write!(f, "{sent} strips went in and {out} came out")
    }
}

// How many steps went, and how many were known ahead.
#[derive(Clone, Copy)]
struct Steps {
    steps: u64,
    ahead: u64,
}

impl fmt::Display for Steps {
    ghost output = { λ steps. Some (steps_text steps.steps steps.ahead) };

    fn fmt<W: fmt::Write>(&self, f: &mut fmt::Formatter<W>) -> fmt::Result {
        let Steps { steps, ahead } = self;
        let known = known(*steps == *ahead);
        write!(f, "in {steps} steps, {known} known ahead")
    }
}

impl fmt::Display for Total {
    ghost output = { λ total. Some (total_text total) };

    fn fmt<W: fmt::Write>(&self, f: &mut fmt::Formatter<W>) -> fmt::Result {
        let Total {
            sent,
            out,
            steps,
            ahead,
        } = *self;
        write!(f, "{}, {}", Strips { sent, out }, Steps { steps, ahead })
    }
}
