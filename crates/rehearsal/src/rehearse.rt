// Rehearsing the open streams of a grid.
ghost use Rattle.std.specs.Prelude.{◌≡◌, ℕ, ◌<◌, [], ◌∷◌, true, false, length, slice_index_or};
ghost use Rattle.std.specs.List.{zip};
ghost use Rattle.std.specs.Option.{option_map};
ghost use Rattle.routes.specs.Routes.{streams_of};
ghost use Rattle.routes.specs.Loads.{stream_count};
ghost use Rattle.grid.specs.Grids.{ways_of};
ghost use Rattle.model.specs.Sweeps.{sweep_of};
ghost use Rattle.grid.specs.Sweeps.{workspace, setting_in, lane_count_in, suffices, out_by, Swept};
ghost use Rattle.rehearsal.specs.Rehearsals.{tally_of, Takes, CountsMore, moment, SendsNone, NoneSends, Idle, GoesOn, MayRehearse};

use crate::beat::Beat;
use crate::tally::{Tally, strip_of};
use grid::grid::Grid;
use grid::sweep::Sweep;
use lanes::strip::Strip;
use layouts::ways::Ways;
use plan::summary::summary;
use policies::policy::Policy;
use refusals::refusal::Refusal;
use routes::stream::Stream;

/// What a rehearsal came to.
#[derive(Clone, Copy, PartialEq, Eq, Debug)]
pub struct Rehearsal {
    /// What was seen of each open stream, by its number.
    pub tallies: [Option<Tally>; 64],
    /// How many steps went.
    pub steps: u64,
    /// How many strips came out.
    pub items: u64,
    /// How many steps were known ahead: for each strip the hops of its stream's route.
    pub ahead: u64,
}

// An empty tally for each open stream.
fn tallies(streams: &[Option<Stream>; 64]) -> [Option<Tally>; 64]
    ensures { (n : ℕ) → n < stream_count → slice_index_or result n None
        ≡ option_map (λ _. tally_of n [] []) (streams_of streams.now n) }
{
    let mut tallies = [None; 64];
    for stream in 0..64 {
        if streams[stream].is_some() {
            tallies[stream] = Some(Tally::NONE);
        }
    }
    tallies
}

// A strip of a stream came out.
fn take(tallies: &mut [Option<Tally>; 64], stream: u16, strip: Strip)
    ensures { Takes ((stream, strip) ∷ []) tallies.old tallies.new }
{
    if stream < 64 {
        if let Some(tally) = tallies[usize::from(stream)] {
            tallies[usize::from(stream)] = Some(tally.after(stream, strip));
        }
    }
}

impl Rehearsal {
    // A stream sends its next strip, if it has one left. Whether the strip was let in.
    fn send<W: Ways, P: Policy<W>>(
        &mut self,
        grid: &mut Grid<W, P>,
        slots: &mut [Strip],
        stream: u8,
        strips: u16,
    ) -> bool
        requires { stream < stream_count }
        ensures ways { ways_of grid.new ≡ ways_of grid.old }
        ensures on { GoesOn strips result
            (moment self.old grid.old slots.old) (moment self.new grid.new slots.new) }
        ensures idle { result ≡ false → Idle
            (moment self.old grid.old slots.old) (moment self.new grid.new slots.new) }
        ensures declined { result ≡ false
            → SendsNone strips (moment self.new grid.new slots.new) stream }
    {
        let number = usize::from(stream);
        let Some(tally) = self.tallies[number] else {
            return false;
        };
        if tally.sent >= strips {
            return false;
        }
        let row = tally.sent;
        let Ok(()) = grid.send(slots, u16::from(stream), strip_of(stream, row)) else {
            return false;
        };
        self.tallies[number] = Some(Tally {
            sent: row + 1,
            ..tally
        });
        true
    }

    // All streams send, each as often as the beat says. Whether a strip was let in.
    fn send_all<W: Ways, P: Policy<W>>(
        &mut self,
        grid: &mut Grid<W, P>,
        slots: &mut [Strip],
        strips: u16,
        beat: Beat,
        turn: u64,
    ) -> bool
        ensures ways { ways_of grid.new ≡ ways_of grid.old }
        ensures on { GoesOn strips result
            (moment self.old grid.old slots.old) (moment self.new grid.new slots.new) }
        ensures declined { result ≡ false
            → NoneSends strips (moment self.new grid.new slots.new) }
    {
        let mut went = false;
        for stream in 0..64 {
            for _ in 0..beat.tries(turn, stream) {
                went |= self.send(grid, slots, stream, strips);
            }
        }
        went
    }

    // So many steps went, and these strips came out, each of the stream beside it.
    fn count(&mut self, steps: usize, streams: &[u16], strips: &[Strip])
        requires { length strips.now ≡ length streams.now }
        ensures { CountsMore steps (zip streams.now strips.now) self.old self.new }
    {
        self.steps = self.steps.saturating_add(steps as u64);
        self.items = self.items.saturating_add(strips.len() as u64);
        for (stream, strip) in streams.iter().zip(strips) {
            take(&mut self.tallies, *stream, *strip);
        }
    }

    // Sweeps the grid, and counts what it comes to.
    fn sweep<W: Ways, P: Policy<W>>(
        &mut self,
        grid: &mut Grid<W, P>,
        slots: &mut [Strip],
        streams: &mut [u16],
        items: &mut [Strip],
    ) -> Sweep
        requires { let before = workspace grid.old slots.old streams.old items.old in
            suffices (lane_count_in before) before ≡ true }
        ensures ways { ways_of grid.new ≡ ways_of grid.old }
        ensures swept { let before = workspace grid.old slots.old streams.old items.old in
            Swept before result (workspace grid.new slots.new streams.new items.new) }
        ensures counted { let before = workspace grid.old slots.old streams.old items.old in
            CountsMore result.steps (out_by before (sweep_of (setting_in before)))
            self.old self.new }
    {
        // enough is lent
        let told = grid.sweep(slots, streams, items).unwrap();
        self.count(told.steps, &streams[..told.items], &items[..told.items]);
        told
    }
}

/// Rehearses the open streams: each sends so many strips, in the beat, and the lanes are swept in turn, until nothing goes any more.
/// It completes: every open stream lets in all its strips, and all of them come out, in order, by as many steps as were known ahead.
///
/// What comes out by a sweep is written into the two tables. What then stands in their first entries, one for each lane of each link,
/// is left open; entries behind them are not touched.
///
/// Refuses too few slots, and a table of fewer entries than there are lanes on all links, by `TooFewSlots`, and then a grid that has
/// items by `ItemsOnGrid`; what is lent is then as it was.
pub fn rehearse<W: Ways, P: Policy<W>>(
    grid: &mut Grid<W, P>,
    slots: &mut [Strip],
    streams: &mut [u16],
    items: &mut [Strip],
    strips: u16,
    beat: Beat,
) -> Result<Rehearsal, Refusal>
    ensures ways { ways_of grid.new ≡ ways_of grid.old }
    ensures made { let before = workspace grid.old slots.old streams.old items.old in
        MayRehearse strips before result (workspace grid.new slots.new streams.new items.new) }
{
    let size = grid.size();
    let lanes = size.lane_count();
    if slots.len() < size.slots() || streams.len() < lanes || items.len() < lanes {
        return Err(Refusal::TooFewSlots);
    }
    if grid.items() != 0 {
        return Err(Refusal::ItemsOnGrid);
    }
    let hops = summary(grid).hops as u64;
    let mut rehearsal = Rehearsal {
        tallies: tallies(grid.streams()),
        steps: 0,
        items: 0,
        ahead: u64::from(strips).saturating_mul(hops),
    };
    // each turn but the last lets a strip in or takes one a hop on
    for turn in 0..u64::MAX {
        let mut went = rehearsal.send_all(grid, slots, strips, beat, turn);
        went |= rehearsal.sweep(grid, slots, streams, items).steps > 0;
        if !went {
            break;
        }
    }
    Ok(rehearsal)
}
