// The rounds of a search: row after row of walks, each one hop longer.
ghost use Rattle.layouts.specs.Layout.{meaning_by};
ghost use Rattle.std.specs.Prelude.{◌*◌, ◌<◌, ◌≤◌, length};
ghost use Rattle.search.specs.Walks.{problem_in, places};
ghost use Rattle.search.specs.Rows.{marks_in, values_in, Tells, RowBefore, Row};

use crate::measure::Measure;
use crate::search::Search;
use layouts::rules::Rules;
use layouts::ways::Ways;

impl<L: Rules, M: Measure> Search<'_, L, M> {
    // The mark of a place in row k, and the value that goes with it.
    fn entry(&self, values: &[M::Value], marks: &[u16], k: usize, place: usize) -> (u16, M::Value)
        requires place { place
            < places (problem_in (meaning_by L.topology L.turns self.now.layout.now)
            self.now.prepared) }
        requires values { places (problem_in (meaning_by L.topology L.turns self.now.layout.now)
            self.now.prepared) ≤ length values.now }
        requires marks { k * places (problem_in (meaning_by L.topology L.turns self.now.layout.now)
            self.now.prepared) ≤ length marks.now }
        requires before { let P = problem_in (meaning_by L.topology L.turns self.now.layout.now)
            self.now.prepared in let s = M.scale self.now.measure.now in
            RowBefore s P (marks_in P marks.now) (values_in s values.now) k }
        ensures { let P = problem_in (meaning_by L.topology L.turns self.now.layout.now)
            self.now.prepared in Tells (M.scale self.now.measure.now) P (marks_in P marks.now) k
            place result.0 result.1 }
    {
        let start = self.measure.start();
        let hop = self.hop(place);
        let Some(cost) = self.prepared.costs[usize::from(hop.link)] else {
            return (0, start);
        };
        if k == 0 {
            if self.layout.start(hop.link) != self.prepared.request.source {
                return (0, start);
            }
            return (1, self.measure.extend(start, cost));
        }
        match self.before(marks, values, k - 1, hop) {
            // proved to lose nothing
            Some(from) => ((from + 1) as u16, self.measure.extend(values[from], cost)),
            None => (0, start),
        }
    }

    // Fills row k from the row before, if there is one. Its values are worked out in the upper half and then moved down.
    pub(crate) fn round(&self, values: &mut [M::Value], marks: &mut [u16], k: usize)
        requires row { k < 24 }
        requires values { 2 * places (problem_in (meaning_by L.topology L.turns self.now.layout.now)
            self.now.prepared) ≤ length values.old }
        requires marks { 24 * places (problem_in (meaning_by L.topology L.turns self.now.layout.now)
            self.now.prepared) ≤ length marks.old }
        requires before { let P = problem_in (meaning_by L.topology L.turns self.now.layout.now)
            self.now.prepared in let s = M.scale self.now.measure.now in
            RowBefore s P (marks_in P marks.old) (values_in s values.old) k }
        ensures { let P = problem_in (meaning_by L.topology L.turns self.now.layout.now)
            self.now.prepared in let s = M.scale self.now.measure.now in
            Row s P (marks_in P marks.new) (values_in s values.new) k (places P) }
    {
        let places = self.places();
        for place in 0..places {
            let (mark, value) = self.entry(values, marks, k, place);
            marks[k * places + place] = mark;
            values[places + place] = value;
        }
        let (lower, upper) = values.split_at_mut(places);
        lower.copy_from_slice(&upper[..places]);
    }
}
