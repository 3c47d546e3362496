// The grid at hand, and its answers.
ghost use Rattle.std.specs.Prelude.{◌≡◌, length, Ok, MatchResult, IfOk, vec_items};
ghost use Rattle.layouts.specs.Mesh.{meaning_of};
ghost use Rattle.lanes.specs.Sizes.{slot_count};
ghost use Rattle.search.specs.Scales.{choice, total, peak};
ghost use Rattle.search.specs.Finds.{values_needed, marks_needed};
ghost use Rattle.grid.specs.declared.make.MakeError.TheVariants.{OutOfMemory};
ghost use Rattle.grid.specs.Blank.{NotMade};
ghost use Rattle.plan.specs.Loads.{sizes_of};
ghost use Rattle.plan.specs.Verdicts.{sizes_in};
ghost use Rattle.session.specs.Entries.{entry_count};
ghost use Rattle.session.specs.Measures.{scale_of};
ghost use Rattle.session.specs.Heads.{IsOfMesh, IsAllowed};

use crate::answer::Answer;
use crate::brief::Brief;
use crate::failure::Failure;
use codec::head::Head;
use grid::grid::Grid;
use grid::make::MakeError;
use grid::step::Step;
use lanes::strip::Strip;
use layouts::mesh::Mesh;
use plan::load::load;
use plan::write::write;
use rehearsal::beat::Beat;
use rehearsal::rehearse::rehearse;
use routes::hop::Hop;
use routes::stream::Request;
use script::command::{BeatName, MeasureName};
use search::choice::{Choice, Either};
use search::peak::Peak;
use search::scratch::{marks_needed, values_needed};
use search::total::Total;
use std::alloc::Global;

/// A grid with a slot for each item that its lanes can contain, two tables for what comes out by a sweep or a drain, the scratch of seeks, and
/// the head of its plans.
#[derive(Drop)]
pub(crate) struct GridAtHand {
    pub(crate) grid: Grid<Mesh>,
    pub(crate) slots: Vec<Strip>,
    pub(crate) streams: Vec<u16>,
    pub(crate) items: Vec<Strip>,
    values: Vec<Either<u32, (u16, u16)>>,
    marks: Vec<u16>,
    pub(crate) head: Head,
    ghost all_slots: { length (vec_items slots) ≡ slot_count grid.tables.lanes.size },
    ghost all_streams: { length (vec_items streams) ≡ entry_count grid.tables.lanes.size },
    ghost all_items: { length (vec_items items) ≡ entry_count grid.tables.lanes.size },
    ghost all_values: { length (vec_items values) ≡ values_needed grid.tables.lanes.size.links grid.tables.lanes.size.lanes },
    ghost all_marks: { length (vec_items marks) ≡ marks_needed grid.tables.lanes.size.links grid.tables.lanes.size.lanes },
    ghost allowed: { IsAllowed head },
    ghost fitting: { sizes_in head ≡ sizes_of grid.tables },
}

// A vector of so many copies of an item.
fn filled<T: Copy + Drop>(heap: Global, item: T, count: usize) -> Result<Vec<T>, MakeError>
    ensures { MatchResult result (λ items. length (vec_items items) ≡ count) (λ e. e ≡ OutOfMemory) }
{
    Ok(vec![in heap; item; count]?)
}

// The measure that a name means.
fn measure_of(name: MeasureName) -> Choice<Total, Peak>
    ensures { choice result.is_second total peak ≡ scale_of name }
{
    Choice {
        first: Total,
        second: Peak,
        is_second: match name {
            MeasureName::Total => false,
            MeasureName::Peak => true,
        },
    }
}

impl GridAtHand {
    ghost use Rattle.session.specs.Hands.{grid_of};
    ghost use Rattle.session.specs.Sessions.{NewGrid, Opens, Searches, Closes, Sends, Steps, Sweeps, Drains, LoadsPlan, RehearsesStreams, told, short, IsLong, fields, route, link_load, count, items, ahead, plan_of};

    // A blank grid of the sizes in its head, with all that it is lent and its scratch.
    pub(crate) fn blank(heap: Global, mesh: Mesh, head: Head) -> Result<GridAtHand, MakeError>
        requires { IsOfMesh head }
        ensures { MatchResult result (λ g. NewGrid (meaning_of mesh) head (grid_of g)) (λ e. NotMade head.lanes head.depth head.capacity e) }
    {
        let grid = Grid::blank(heap, mesh, head.lanes, head.depth, head.capacity)?;
        let size = grid.size();
        // a drain brings out no more items than there are slots, and is to have an entry for each lane besides
        let entries = size.slots() + size.lane_count();
        let strip = Strip {
            fragment: 0,
            band: 0,
            row: 0,
        };
        Ok(GridAtHand {
            grid,
            slots: filled(heap, strip, size.slots())?,
            streams: filled(heap, 0, entries)?,
            items: filled(heap, strip, entries)?,
            values: filled(
                heap,
                Either::First(0),
                values_needed(size.links(), size.lanes()),
            )?,
            marks: filled(heap, 0, marks_needed(size.links(), size.lanes()))?,
            head,
        })
    }

    // Opens a stream.
    pub(crate) fn open(
        &mut self,
        stream: u16,
        request: Request,
        hops: &[Hop],
    ) -> Result<Brief, Failure>
        ensures { Opens stream request hops.now (grid_of self.old) (short result)
            (grid_of self.new) }
    {
        self.grid.open(stream, request, hops)?;
        Ok(Brief::Accepted)
    }

    // Opens a stream on a best route, and answers that route.
    pub(crate) fn seek(
        &mut self,
        stream: u16,
        request: Request,
        measure: MeasureName,
    ) -> Result<Answer, Failure>
        ensures value { Searches stream request measure (grid_of self.old) result
            (grid_of self.new) }
        ensures long { IfOk result IsLong }
    {
        self.grid.seek(
            stream,
            request,
            &measure_of(measure),
            self.values.as_mut_slice(),
            self.marks.as_mut_slice(),
        )?;
        self.route(stream)
    }

    // Closes a stream.
    pub(crate) fn close(&mut self, stream: u16) -> Result<Brief, Failure>
        ensures { Closes stream (grid_of self.old) (short result) (grid_of self.new) }
    {
        self.grid.close(stream)?;
        Ok(Brief::Accepted)
    }

    // Loads a plan.
    pub(crate) fn load(&mut self, plan: &[u8]) -> Result<Brief, Failure>
        ensures { LoadsPlan plan.now (grid_of self.old) (short result) (grid_of self.new) }
    {
        Ok(Brief::Loaded(load(&mut self.grid, plan)?))
    }

    // Sends a strip.
    pub(crate) fn send(&mut self, stream: u16, strip: Strip) -> Result<Brief, Failure>
        ensures { Sends stream strip (grid_of self.old) (short result) (grid_of self.new) }
    {
        self.grid.send(self.slots.as_mut_slice(), stream, strip)?;
        Ok(Brief::Accepted)
    }

    // Steps a lane.
    pub(crate) fn step(&mut self, hop: Hop) -> Result<Brief, Failure>
        ensures { Steps hop (grid_of self.old) (short result) (grid_of self.new) }
    {
        match self.grid.step(self.slots.as_mut_slice(), hop)? {
            Step::Moved(stream) => Ok(Brief::Moved(stream)),
            Step::Out(stream, strip) => Ok(Brief::Out(stream, strip)),
        }
    }

    // Sweeps the grid.
    pub(crate) fn sweep(&mut self) -> Brief
        ensures { Sweeps (grid_of self.old) (told result) (grid_of self.new) }
    {
        // all slots are lent, and an entry for each lane
        let swept = self
            .grid
            .sweep(
                self.slots.as_mut_slice(),
                self.streams.as_mut_slice(),
                self.items.as_mut_slice(),
            )
            .unwrap();
        Brief::CameOut(swept.steps, swept.items)
    }

    // Drains the grid.
    pub(crate) fn drain(&mut self) -> Brief
        ensures { Drains (grid_of self.old) (told result) (grid_of self.new) }
    {
        // all slots are lent, and an entry for each item and for each lane
        let drained = self
            .grid
            .drain(
                self.slots.as_mut_slice(),
                self.streams.as_mut_slice(),
                self.items.as_mut_slice(),
            )
            .unwrap();
        Brief::CameOut(drained.steps, drained.items)
    }

    // Rehearses the open streams.
    pub(crate) fn rehearse(&mut self, strips: u16, beat: BeatName) -> Result<Answer, Failure>
        ensures value { RehearsesStreams strips (grid_of self.old) result (grid_of self.new) }
        ensures long { IfOk result IsLong }
    {
        let beat = match beat {
            BeatName::Even => Beat::Even,
            BeatName::Uneven => Beat::Uneven,
        };
        let rehearsal = rehearse(
            &mut self.grid,
            self.slots.as_mut_slice(),
            self.streams.as_mut_slice(),
            self.items.as_mut_slice(),
            strips,
            beat,
        )?;
        Ok(Answer::Rehearsed(rehearsal))
    }

    // What a stream asked for.
    pub(crate) fn fields(&self, stream: u16) -> Result<Brief, Failure>
        ensures { short result ≡ fields stream (grid_of self.now) }
    {
        Ok(Brief::Fields(self.grid.stream(stream)?))
    }

    // The route of a stream.
    pub(crate) fn route(&self, stream: u16) -> Result<Answer, Failure>
        ensures value { result ≡ route stream (grid_of self.now) }
        ensures long { IfOk result IsLong }
    {
        let mut hops = [Hop { link: 0, lane: 0 }; 24];
        let count = self.grid.route(stream, &mut hops)?;
        Ok(Answer::Route(hops, count))
    }

    // The load of a link.
    pub(crate) fn link_load(&self, link: u16) -> Result<Brief, Failure>
        ensures { short result ≡ link_load link (grid_of self.now) }
    {
        Ok(Brief::Load(self.grid.link_load(link)?))
    }

    // How many items a lane contains.
    pub(crate) fn count(&self, hop: Hop) -> Result<Brief, Failure>
        ensures { short result ≡ count hop (grid_of self.now) }
    {
        Ok(Brief::Count(usize::from(self.grid.count(hop)?)))
    }

    // How many items are on the grid.
    pub(crate) fn items(&self) -> Brief
        ensures { told result ≡ items (grid_of self.now) }
    {
        Brief::Count(self.grid.items())
    }

    // How many hops are ahead.
    pub(crate) fn ahead(&self) -> Brief
        ensures { told result ≡ ahead (grid_of self.now) }
    {
        Brief::Ahead(self.grid.hops_ahead())
    }

    // The plan of the open streams.
    pub(crate) fn plan(&self) -> Answer
        ensures value { Ok result ≡ plan_of (grid_of self.now) }
        ensures long { IsLong result }
    {
        let mut plan = [0; 3530];
        // the head is accepted, and the table is long enough
        let count = write(&self.grid, &self.head, &mut plan).unwrap();
        Answer::Written(plan, count)
    }
}
