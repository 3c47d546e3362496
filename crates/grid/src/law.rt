// The law of every grid.
ghost use Rattle.std.specs.Prelude.{ℕ, ◌≤◌};
ghost use Rattle.layouts.specs.Layout.{meaning_by};
ghost use Rattle.routes.specs.Loads.{load};
ghost use Rattle.model.specs.Sound.{Sound};
ghost use Rattle.grid.specs.Views.{streams_in};
ghost use Rattle.grid.specs.Laws.{LawFrom};
ghost use Rattle.grid.specs.Grids.{kind_of, tables_of};
ghost use Rattle.grid.specs.Bounds.{BoundFrom};

use crate::grid::Grid;
use layouts::rules::Rules;
use layouts::ways::Ways;
use policies::policy::Policy;

impl<W: Ways, P: Policy<W>> Grid<W, P> {
    /// The law of every grid, whatever was called before. No link bears more than the capacity; and of any calls made next
    /// with slots enough, items and hops ahead are neither lost nor gained, each stream keeps its order, a step is possible
    /// exactly while an item is on the grid, and the hops ahead tell how many steps are to go. Of any sweeps made next, with
    /// none declined, no item is on the grid after as many as there are hops ahead now, and by then as many steps have gone.
    ///
    /// It computes nothing: its contract is the law.
    pub fn law<T: Copy>(&self, slots: &[T])
        ensures loads { (link : ℕ) → load (streams_in self.now.tables) link
            ≤ self.now.tables.capacity }
        ensures calls { LawFrom (P.kind self.now.layout) self.now.tables slots.now }
        ensures sweeps { BoundFrom (kind_of self.now) (tables_of self.now) slots.now }
    {}
}

impl<L: Rules> Grid<L> {
    /// What every grid by rules keeps of its open streams besides: each has a route that it could take on an unloaded grid.
    ///
    /// It computes nothing: its contract is the law.
    pub fn law_by_rules(&self)
        ensures { Sound (meaning_by L.topology L.turns self.now.layout)
            self.now.tables.lanes.size.lanes self.now.tables.capacity (streams_in self.now.tables) }
    {}
}
