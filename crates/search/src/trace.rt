// Reading a route back.
ghost use Rattle.layouts.specs.Layout.{meaning_by};
ghost use Rattle.std.specs.Prelude.{◌≡◌, suc, ◌*◌, ◌<◌, ◌≤◌, length};
ghost use Rattle.routes.specs.Routes.{hop_at};
ghost use Rattle.search.specs.Walks.{problem_in, places, back};
ghost use Rattle.search.specs.Rows.{marks_in, path, Leads};

use crate::measure::Measure;
use crate::search::Search;
use layouts::rules::Rules;
use routes::hop::Hop;

impl<L: Rules, M: Measure> Search<'_, L, M> {
    // The hops of the walk to a place of row k, first to last, at the front of a table: the marks lead back along them.
    pub(crate) fn trace(&self, marks: &[u16], k: usize, place: usize) -> [Hop; 24]
        requires row { k < 24 }
        requires marks { 24 * places (problem_in (meaning_by L.topology L.turns self.now.layout.now)
            self.now.prepared) ≤ length marks.now }
        requires place { place
            < places (problem_in (meaning_by L.topology L.turns self.now.layout.now)
            self.now.prepared) }
        requires leads { let P = problem_in (meaning_by L.topology L.turns self.now.layout.now)
            self.now.prepared in Leads P (marks_in P marks.now) k (marks_in P marks.now k place) }
        ensures whole { length result ≡ 24 }
        ensures walk { let P = problem_in (meaning_by L.topology L.turns self.now.layout.now)
            self.now.prepared in back (hop_at result) (suc k) ≡ path P (marks_in P marks.now) k
            (marks_in P marks.now k place) place }
    {
        let mut table = [Hop { link: 0, lane: 0 }; 24];
        let mut at = place;
        let mut row = k;
        table[row] = self.hop(at);
        while row > 0 {
            at = usize::from(marks[row * self.places() + at]) - 1;
            row -= 1;
            table[row] = self.hop(at);
        }
        table
    }
}
