// Places, the lanes of all links numbered one after another, and which of them a walk may come from.
ghost use Rattle.layouts.specs.Layout.{meaning_by};
ghost use Rattle.std.specs.Prelude.{◌≡◌, ℕ, suc, ◌*◌, ◌<◌, ◌≤◌, Some, length};
ghost use Rattle.search.specs.Walks.{problem_in, places, hop_of};
ghost use Rattle.search.specs.Rows.{marks_in, values_in, lane_before, place_before, is_arrival, Before, Arrival, Least, lesser};

use crate::measure::Measure;
use crate::search::Search;
use layouts::rules::Rules;
use layouts::turn::Turn;
use layouts::ways::Ways;
use routes::hop::Hop;

// The highest lane from which a turn may lead to a lane.
fn lane_before(turn: Turn, lane: u8) -> Option<u8>
    ensures { result ≡ lane_before turn lane }
{
    match turn {
        Turn::Never => None,
        Turn::Free => Some(lane),
        Turn::Climb => lane.checked_sub(1),
    }
}

impl<L: Rules, M: Measure> Search<'_, L, M> {
    // How many places there are.
    pub(crate) fn places(&self) -> usize
        ensures value { result
            ≡ places (problem_in (meaning_by L.topology L.turns self.now.layout.now)
            self.now.prepared) }
        ensures few { result ≤ 1024 }
    {
        self.layout.links() as usize * self.prepared.lanes as usize
    }

    // The hop at a place.
    pub(crate) fn hop(&self, place: usize) -> Hop
        requires { place < places (problem_in (meaning_by L.topology L.turns self.now.layout.now)
            self.now.prepared) }
        ensures { result ≡ hop_of (problem_in (meaning_by L.topology L.turns self.now.layout.now)
            self.now.prepared) place }
    {
        let lanes = self.prepared.lanes as usize;
        Hop {
            link: (place / lanes) as u16,
            lane: (place % lanes) as u8,
        }
    }

    // The place on a link from which a walk may go on to a hop: on the highest lane that the turn allows, if row k marks it.
    fn place_before(&self, marks: &[u16], k: usize, hop: Hop, link: u16) -> Option<usize>
        requires marks { suc k * places
            (problem_in (meaning_by L.topology L.turns self.now.layout.now) self.now.prepared)
            ≤ length marks.now }
        requires lane { hop.lane < self.now.prepared.lanes }
        requires link { link < (meaning_by L.topology L.turns self.now.layout.now).links }
        ensures { let P = problem_in (meaning_by L.topology L.turns self.now.layout.now)
            self.now.prepared in result ≡ place_before P (marks_in P marks.now) k hop link }
    {
        let lane = lane_before(self.layout.turn(link, hop.link), hop.lane)?;
        let place = link as usize * self.prepared.lanes as usize + lane as usize;
        if marks[k * self.places() + place] > 0 {
            Some(place)
        } else {
            None
        }
    }

    // The place of lesser value, of the best so far, if any, and another.
    fn lesser(&self, values: &[M::Value], best: Option<usize>, place: usize) -> usize
        requires best { (b : ℕ) → best ≡ Some b → b < length values.now }
        requires place { place < length values.now }
        ensures { result ≡ lesser (M.scale self.now.measure.now)
            (values_in (M.scale self.now.measure.now) values.now) best place }
    {
        match best {
            None => place,
            Some(so_far) => if self.measure.not_above(values[so_far], values[place]) {
                so_far
            } else {
                place
            },
        }
    }

    // The place of row k from which a walk goes on to a hop with the least value, if there is one. It goes through the links that
    // lead to the hop's start, and asks one lane of each: the highest, since a walk may end on a higher lane of its last link
    // and measures the same.
    pub(crate) fn before(
        &self,
        marks: &[u16],
        values: &[M::Value],
        k: usize,
        hop: Hop,
    ) -> Option<usize>
        requires marks { suc k * places
            (problem_in (meaning_by L.topology L.turns self.now.layout.now) self.now.prepared)
            ≤ length marks.now }
        requires values { places (problem_in (meaning_by L.topology L.turns self.now.layout.now)
            self.now.prepared) ≤ length values.now }
        requires link { hop.link < (meaning_by L.topology L.turns self.now.layout.now).links }
        requires lane { hop.lane < self.now.prepared.lanes }
        ensures { let P = problem_in (meaning_by L.topology L.turns self.now.layout.now)
            self.now.prepared in let s = M.scale self.now.measure.now in
            Least s (values_in s values.now) (Before P (marks_in P marks.now) k hop 0) result }
    {
        let mut best = None;
        let mut into = self.prepared.incoming.last[usize::from(self.layout.start(hop.link))];
        while let Some(link) = into {
            if let Some(place) = self.place_before(marks, k, hop, link) {
                best = Some(self.lesser(values, best, place));
            }
            into = self.prepared.incoming.previous[usize::from(link)];
        }
        best
    }

    // Whether a walk arrives at a place of row k.
    fn is_arrival(&self, marks: &[u16], k: usize, place: usize) -> bool
        requires marks { suc k * places
            (problem_in (meaning_by L.topology L.turns self.now.layout.now) self.now.prepared)
            ≤ length marks.now }
        requires place { place
            < places (problem_in (meaning_by L.topology L.turns self.now.layout.now)
            self.now.prepared) }
        ensures { let P = problem_in (meaning_by L.topology L.turns self.now.layout.now)
            self.now.prepared in result ≡ is_arrival P (marks_in P marks.now) k place }
    {
        marks[k * self.places() + place] > 0
            && self.layout.end(self.hop(place).link) == self.prepared.request.target
    }

    // The place of row k at which a walk arrives with the least value, if there is one.
    pub(crate) fn arrival(&self, marks: &[u16], values: &[M::Value], k: usize) -> Option<usize>
        requires marks { suc k * places
            (problem_in (meaning_by L.topology L.turns self.now.layout.now) self.now.prepared)
            ≤ length marks.now }
        requires values { places (problem_in (meaning_by L.topology L.turns self.now.layout.now)
            self.now.prepared) ≤ length values.now }
        ensures { let P = problem_in (meaning_by L.topology L.turns self.now.layout.now)
            self.now.prepared in let s = M.scale self.now.measure.now in
            Least s (values_in s values.now) (Arrival P (marks_in P marks.now) k (places P))
            result }
    {
        let mut best = None;
        for place in 0..self.places() {
            if self.is_arrival(marks, k, place) {
                best = Some(self.lesser(values, best, place));
            }
        }
        best
    }
}
