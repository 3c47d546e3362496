// The sum of the loads.
ghost use Rattle.search.specs.Scales.{total};
ghost use Rattle.search.specs.ScaleLaws.{total_ordered, total_antisymmetric};

use crate::measure::Measure;

/// The sum of the loads over the hops, at most 4,294,967,295.
#[derive(Clone, Copy, PartialEq, Eq, Debug)]
pub struct Total;

impl Measure for Total {
    type Value = u32;

    ghost scale = { λ _. total };

    fn start(&self) -> u32 {
        0
    }

    fn extend(&self, sum: u32, load: u16) -> u32 {
        sum.saturating_add(u32::from(load))
    }

    fn not_above(&self, p: u32, q: u32) -> bool {
        p <= q
    }

    ghost ordered = { λ _. total_ordered };

    ghost antisymmetric = { λ _. total_antisymmetric };
}
