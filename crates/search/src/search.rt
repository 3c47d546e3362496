// Searches.
ghost use Rattle.layouts.specs.Layout.{meaning_by};
ghost use Rattle.search.specs.Incoming.{Chains};

use crate::measure::Measure;
use crate::prepared::Prepared;
use layouts::rules::Rules;

/// A search on a layout by a measure.
#[derive(Drop)]
pub(crate) struct Search<'a, L: Rules, M: Measure> {
    pub(crate) layout: &'a L,
    pub(crate) measure: &'a M,
    pub(crate) prepared: Prepared,
    ghost chained: { Chains (meaning_by L.topology L.turns layout.now)
        (meaning_by L.topology L.turns layout.now).links prepared.incoming },
}
