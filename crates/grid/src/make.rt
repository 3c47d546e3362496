// Making a blank grid.
ghost use Rattle.std.specs.Prelude.{◌≡◌, ℕ, None, IfOk, IfErr};
ghost use Rattle.grid.specs.declared.make.MakeError.TheVariants.{Refused, OutOfMemory};
ghost use Rattle.grid.specs.Views.{streams_in};
ghost use Rattle.grid.specs.Blank.{making_refusal, BlankTables, NotMade};

use crate::grid::Grid;
use crate::tables::Tables;
use lanes::size::Size;
use lanes::tables::Lanes;
use layouts::ways::Ways;
use policies::policy::Policy;
use refusals::refusal::Refusal;
use std::alloc::{AllocError, Global};
use std::marker::PhantomData;

/// Why no grid is made.
#[derive(Clone, Copy, PartialEq, Eq, Debug)]
pub enum MakeError {
    /// The grid is refused.
    Refused(Refusal),
    /// There is no memory for its tables.
    OutOfMemory,
}

/// A refusal, as it is.
impl From<Refusal> for MakeError {
    ghost from_gives = { λ refusal error. error ≡ Refused refusal };

    fn from(refusal: Refusal) -> MakeError {
        MakeError::Refused(refusal)
    }
}

/// Want of memory.
impl From<AllocError> for MakeError {
    ghost from_gives = { λ _ error. error ≡ OutOfMemory };

    fn from(_refused: AllocError) -> MakeError {
        MakeError::OutOfMemory
    }
}

// The tables of these lanes, with no stream.
fn no_stream(lanes: Lanes, capacity: u16) -> Tables
    ensures { (result.lanes ≡ lanes) × (result.capacity ≡ capacity)
        × ((n : ℕ) → streams_in result n ≡ None) }
{
    Tables {
        lanes,
        streams: [None; 64],
        capacity,
    }
}

impl<W: Ways + Drop, P: Policy<W>> Grid<W, P> {
    /// A grid on ways, with no stream and no item: so many lanes for each link, so many items to a lane, and one capacity
    /// for every link. No later call allocates.
    ///
    /// Refuses lanes outside 1 to 4 and a depth outside 1 to 8 by `GridSize`, and then a capacity of 0 by `ZeroAmount`. Fails by
    /// `OutOfMemory` where nothing is refused and there is no memory for the tables.
    pub fn blank(
        heap: Global,
        layout: W,
        lanes: u16,
        depth: u16,
        capacity: u16,
    ) -> Result<Grid<W, P>, MakeError>
        ensures made { IfOk result (λ g. (making_refusal lanes depth capacity ≡ None)
            × BlankTables (P.kind layout).links lanes depth capacity g.tables) }
        ensures layout { IfOk result (λ g. g.layout ≡ layout) }
        ensures refused { IfErr result (λ e. NotMade lanes depth capacity e) }
    {
        let size = Size::new(layout.links(), lanes, depth)?;
        if capacity == 0 {
            return Err(Refusal::ZeroAmount.into());
        }
        let lanes = Lanes::blank(heap, size)?;
        Ok(Grid {
            layout,
            tables: no_stream(lanes, capacity),
            policy: PhantomData,
        })
    }
}
