// Opening a stream on the best route.
ghost use Rattle.layouts.specs.Layout.{meaning_by};
ghost use Rattle.std.specs.Prelude.{◌≡◌, length};
ghost use Rattle.search.specs.Finds.{values_needed, marks_needed, SameBeyond};
ghost use Rattle.grid.specs.Seeks.{Seeks};

use crate::grid::Grid;
use layouts::rules::Rules;
use layouts::ways::Ways;
use routes::declined::Declined;
use routes::stream::{Request, Stream};
use search::find::find;
use search::measure::Measure;
use search::scratch::check_scratch;

impl<L: Rules> Grid<L> {
    /// Opens a stream on a best route: one that `open` would take, with the fewest hops, and among those of least measure, where each
    /// hop counts the load of its link with the new demand added. Answers the count of hops.
    ///
    /// The caller lends scratch for the search: at least two values and 24 marks for each lane of each link (`values_needed`,
    /// `marks_needed`). What is in it afterwards is left open, and so is which of equally good routes is taken; what is lent beyond it is
    /// not touched.
    ///
    /// Refuses, in this order, scratch that is too small by `TooFewSlots`, a number above 63 by `NoSuchStream`, an open stream by
    /// `AlreadyOpen`, and fields by `BadEndpoints` and `ZeroAmount`; where nothing of this is refused, it refuses by `NoRoute` exactly
    /// if `open` would take no route. No refusal tells a hop.
    pub fn seek<M: Measure>(
        &mut self,
        stream: u16,
        request: Request,
        measure: &M,
        values: &mut [M::Value],
        marks: &mut [u16],
    ) -> Result<usize, Declined>
        ensures made { Seeks (M.scale measure.now) (meaning_by L.topology L.turns self.old.layout)
            self.old.tables stream request (length values.old) (length marks.old) result
            self.new.tables }
        ensures layout { self.new.layout ≡ self.old.layout }
        ensures values { SameBeyond
            (values_needed (meaning_by L.topology L.turns self.old.layout).links
            self.old.tables.lanes.size.lanes) values.old values.new }
        ensures marks { SameBeyond
            (marks_needed (meaning_by L.topology L.turns self.old.layout).links
            self.old.tables.lanes.size.lanes) marks.old marks.new }
    {
        let limits = self.tables.limits();
        check_scratch(self.layout.links(), limits.lanes, values.len(), marks.len())?;
        self.tables.vacant(stream)?;
        let route = find(&self.layout, limits, request, measure, values, marks)?;
        self.tables.put(stream, Some(Stream { request, route }));
        Ok(route.hops().len())
    }
}
