// The law of every run.
ghost use Rattle.model.specs.Law.{EveryRun, EveryRunByRules};

/// The law of every run, for every kind of item, for every kind of grid that never locks and so for every lawful layout: after every
/// list of calls on a grid that started blank, everything let in comes out, in order, a step is possible exactly while something is on
/// the grid, and the count of steps is known ahead.
///
/// It computes nothing: its contract is the law.
pub fn law_of_every_run<T: Copy>()
    ensures every_kind { EveryRun T }
    ensures by_rules { EveryRunByRules T }
{}
