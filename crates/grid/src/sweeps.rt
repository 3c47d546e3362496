// Sweeps.
ghost use Rattle.std.specs.Prelude.{◌≡◌, ◌<◌, ◌^◌, length};
ghost use Rattle.model.specs.Calls.{answer_of};
ghost use Rattle.grid.specs.Makes.{step_answer};
ghost use Rattle.grid.specs.Grids.{ways_of};
ghost use Rattle.grid.specs.Sweeps.{workspace, Sweeps, Counts};

use crate::grid::Grid;
use crate::step::Step;
use crate::sweep::Sweep;
use layouts::ways::Ways;
use policies::policy::Policy;
use refusals::refusal::Refusal;
use routes::hop::Hop;

impl Sweep {
    // Counts what a step answered, and writes an item that came out, with its stream, behind those that came out before.
    fn count<T: Copy>(
        self,
        answer: Result<Step<T>, Refusal>,
        streams: &mut [u16],
        items: &mut [T],
    ) -> Sweep
        requires steps { self.steps < 2 ^ 20 }
        requires streams { self.items < length streams.old }
        requires items { self.items < length items.old }
        ensures { Counts (answer_of step_answer answer) self streams.old items.old
            result streams.new items.new }
    {
        match answer {
            Err(_) => self,
            Ok(Step::Moved(_)) => Sweep {
                steps: self.steps + 1,
                ..self
            },
            Ok(Step::Out(stream, item)) => {
                streams[self.items] = stream;
                items[self.items] = item;
                Sweep {
                    steps: self.steps + 1,
                    items: self.items + 1,
                }
            }
        }
    }
}

impl<W: Ways, P: Policy<W>> Grid<W, P> {
    /// Tries a step on every lane once, links rising and lanes rising within a link. The items that come out are written into the
    /// two tables from the front, in that order, each with its stream; entries behind them are not touched. Tells how many
    /// steps went and how many items came out. With an item on the grid at least one step goes.
    ///
    /// Refuses too few slots, and a table of fewer entries than there are lanes on all links, by `TooFewSlots`.
    pub fn sweep<T: Copy>(
        &mut self,
        slots: &mut [T],
        streams: &mut [u16],
        items: &mut [T],
    ) -> Result<Sweep, Refusal>
        ensures sweeps { let before = workspace self.old slots.old streams.old items.old in
            Sweeps before result (workspace self.new slots.new streams.new items.new) }
        ensures ways { ways_of self.new ≡ ways_of self.old }
    {
        let size = self.size();
        let lanes = size.lane_count();
        if slots.len() < size.slots() || streams.len() < lanes || items.len() < lanes {
            return Err(Refusal::TooFewSlots);
        }
        let mut told = Sweep { steps: 0, items: 0 };
        for link in 0..size.links() {
            for lane in 0..size.lanes() as u8 {
                let answer = self.step(slots, Hop { link, lane });
                told = told.count(answer, streams, items);
            }
        }
        Ok(told)
    }
}
