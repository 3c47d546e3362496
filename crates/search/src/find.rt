// The search.
ghost use Rattle.layouts.specs.Layout.{meaning_by};
ghost use Rattle.std.specs.Prelude.{◌≡◌, ◌*◌, ◌≤◌, length};
ghost use Rattle.std.specs.Result.{result_map_both};
ghost use Rattle.routes.specs.Routes.{hops_of};
ghost use Rattle.routes.specs.Checks.{terms_of, table_terms};
ghost use Rattle.search.specs.Finds.{values_needed, marks_needed, SameBeyond, search_refusal, Finds};
ghost use Rattle.search.specs.Walks.{problem_in, places, FindsWalk};

use crate::costs::costs;
use crate::incoming::Incoming;
use crate::measure::Measure;
use crate::prepared::Prepared;
use crate::scratch::{check_scratch, marks_needed, values_needed};
use crate::search::Search;
use layouts::rules::Rules;
use layouts::ways::Ways;
use refusals::refusal::Refusal;
use routes::declined::Declined;
use routes::judge::{Limits, TableLimits, judge_fields};
use routes::route::Route;
use routes::stream::Request;

impl<L: Rules, M: Measure> Search<'_, L, M> {
    // The route of a walk that arrives with the fewest hops, and among those of least measure, if any walk of at most 24 hops
    // arrives.
    fn best(&self, values: &mut [M::Value], marks: &mut [u16]) -> Option<Route>
        requires values { 2 * places (problem_in (meaning_by L.topology L.turns self.now.layout.now)
            self.now.prepared) ≤ length values.old }
        requires marks { 24 * places (problem_in (meaning_by L.topology L.turns self.now.layout.now)
            self.now.prepared) ≤ length marks.old }
        ensures { FindsWalk (M.scale self.now.measure.now)
            (problem_in (meaning_by L.topology L.turns self.now.layout.now) self.now.prepared)
            result }
    {
        let mut found = None;
        'rounds: for k in 0..24 {
            self.round(values, marks, k);
            if let Some(place) = self.arrival(marks, values, k) {
                found = Route::new(&self.trace(marks, k, place)[..k + 1]).ok();
                break 'rounds;
            }
        }
        found
    }
}

/// Searches for the best route of a request: one of the acceptable routes with the fewest hops, and among those of least measure.
/// Which of equally good ones is found, and the scratch afterwards, are left open; what is lent beyond the scratch is not touched.
///
/// The search goes by rounds: the first finds for each lane of each link whether a walk of one hop ends there, the next one
/// whether one of two hops does, and so on, with the least value of any such walk; a link may stand twice in a walk. The first
/// round that reaches the target ends the search, and the route is read back through the marks. On that route no link stands twice, since
/// the walk without the hops between would have arrived earlier.
///
/// Refuses, in this order, lanes outside 1 to 4 by `GridSize`, scratch that `check_scratch` refuses by `TooFewSlots`, and what
/// `judge_fields` refuses by `BadEndpoints` and `ZeroAmount`; where nothing of this is refused, it refuses by `NoRoute` exactly if
/// no route is acceptable. No refusal tells a hop.
pub fn find<L: Rules, M: Measure>(
    layout: &L,
    limits: Limits<'_>,
    request: Request,
    measure: &M,
    values: &mut [M::Value],
    marks: &mut [u16],
) -> Result<Route, Declined>
    ensures found { let t = terms_of (meaning_by L.topology L.turns layout.now) limits.entry in
        Finds (search_refusal t request (length values.old) (length marks.old))
        (M.scale measure.now) t request (result_map_both hops_of (λ d. d) result) }
    ensures values { SameBeyond (values_needed (meaning_by L.topology L.turns layout.now).links
        limits.entry.lanes) values.old values.new }
    ensures marks { SameBeyond (marks_needed (meaning_by L.topology L.turns layout.now).links
        limits.entry.lanes) marks.old marks.new }
{
    find_by_table(layout, limits.by_table(), request, measure, values, marks)
}

/// Searches as `find` does, by a table of open streams of any length.
pub fn find_by_table<L: Rules, M: Measure>(
    layout: &L,
    limits: TableLimits<'_>,
    request: Request,
    measure: &M,
    values: &mut [M::Value],
    marks: &mut [u16],
) -> Result<Route, Declined>
    ensures found { let t = table_terms (meaning_by L.topology L.turns layout.now) limits.entry in
        Finds (search_refusal t request (length values.old) (length marks.old))
        (M.scale measure.now) t request (result_map_both hops_of (λ d. d) result) }
    ensures values { SameBeyond (values_needed (meaning_by L.topology L.turns layout.now).links
        limits.entry.lanes) values.old values.new }
    ensures marks { SameBeyond (marks_needed (meaning_by L.topology L.turns layout.now).links
        limits.entry.lanes) marks.old marks.new }
{
    if limits.lanes < 1 || limits.lanes > 4 {
        return Err(Refusal::GridSize.into());
    }
    let links = layout.links();
    check_scratch(links, limits.lanes, values.len(), marks.len())?;
    judge_fields(layout, request)?;
    let search = Search {
        layout,
        measure,
        prepared: Prepared {
            request,
            lanes: limits.lanes,
            costs: costs(layout, limits, request),
            incoming: Incoming::of(layout),
        },
    };
    let values = &mut values[..values_needed(links, limits.lanes)];
    let marks = &mut marks[..marks_needed(links, limits.lanes)];
    search.best(values, marks).ok_or(Refusal::NoRoute.into())
}
