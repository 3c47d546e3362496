// Grids.
ghost use Rattle.std.specs.Prelude.{◌≡◌};
ghost use Rattle.model.specs.Safe.{Reached};
ghost use Rattle.model.specs.Standing.{AllStand};
ghost use Rattle.grid.specs.Views.{streams_in, outline};

use crate::tables::Tables;
use layouts::ways::Ways;
use policies::climbing::Climbing;
use policies::policy::Policy;
use std::marker::PhantomData;

/// A grid: ways, the open streams, and the queues of its lanes, by a policy. The items stand in slots that the caller lends at each
/// call. A call that refuses changes nothing, but that a seek may have written its scratch.
#[derive(Drop)]
pub struct Grid<W: Ways, P: Policy<W> = Climbing> {
    pub(crate) layout: W,
    pub(crate) tables: Tables,
    pub(crate) policy: PhantomData<P>,
    ghost fits: { (P.kind layout).links ≡ tables.lanes.size.links },
    // openings that each passed the judgement, and closings, lead to the open streams
    ghost reached: { ∥ Reached ((P.kind layout).judge tables.lanes.size.lanes tables.capacity)
        (streams_in tables) ∥₁ },
    // each item that a lane contains is of an open stream whose route takes that lane
    ghost standing: { AllStand (outline tables) },
}
