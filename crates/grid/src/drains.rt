// Drains.
ghost use Rattle.std.specs.Prelude.{◌≡◌, ◌+◌, true};
ghost use Rattle.grid.specs.Grids.{ways_of};
ghost use Rattle.grid.specs.Sweeps.{workspace, lane_count_in, suffices};
ghost use Rattle.grid.specs.Drains.{SweptBehind, Drains};

use crate::drain::Drain;
use crate::grid::Grid;
use crate::sweep::Sweep;
use layouts::ways::Ways;
use policies::policy::Policy;
use refusals::refusal::Refusal;

impl<W: Ways, P: Policy<W>> Grid<W, P> {
    // A sweep that leaves so many entries of both tables, and writes behind them.
    fn sweep_behind<T: Copy>(
        &mut self,
        slots: &mut [T],
        streams: &mut [u16],
        items: &mut [T],
        count: usize,
    ) -> Sweep
        requires { let before = workspace self.old slots.old streams.old items.old in
            suffices (count + lane_count_in before) before ≡ true }
        ensures swept { let before = workspace self.old slots.old streams.old items.old in
            SweptBehind count before result (workspace self.new slots.new streams.new items.new) }
        ensures ways { ways_of self.new ≡ ways_of self.old }
    {
        // there are slots enough, and an entry for each lane
        self.sweep(slots, &mut streams[count..], &mut items[count..])
            .unwrap()
    }

    /// Sweeps until no item is on the grid. All that come out are written into the two tables from the front, in that order,
    /// each with its stream; entries behind them are not touched. Tells how many sweeps there were, how many steps went, which
    /// is the number of hops that were ahead, and how many items came out.
    ///
    /// Refuses too few slots, and a table of fewer entries than there are items on the grid and lanes on all links together, by
    /// `TooFewSlots`.
    pub fn drain<T: Copy>(
        &mut self,
        slots: &mut [T],
        streams: &mut [u16],
        items: &mut [T],
    ) -> Result<Drain, Refusal>
        ensures drains { let before = workspace self.old slots.old streams.old items.old in
            Drains before result (workspace self.new slots.new streams.new items.new) }
        ensures ways { ways_of self.new ≡ ways_of self.old }
    {
        let size = self.size();
        let entries = self.items() + size.lane_count();
        if slots.len() < size.slots() || streams.len() < entries || items.len() < entries {
            return Err(Refusal::TooFewSlots);
        }
        let mut told = Drain {
            sweeps: 0,
            steps: 0,
            items: 0,
        };
        while self.items() > 0 {
            let swept = self.sweep_behind(slots, streams, items, told.items);
            told = Drain {
                sweeps: told.sweeps + 1,
                steps: told.steps + swept.steps,
                items: told.items + swept.items,
            };
        }
        Ok(told)
    }
}
