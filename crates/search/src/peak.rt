// The largest load, and how often it is borne.
ghost use Rattle.search.specs.Scales.{peak};
ghost use Rattle.search.specs.ScaleLaws.{peak_ordered, peak_antisymmetric};

use crate::measure::Measure;

/// The largest load over the hops, and the number of hops that bear it, at most 65,535; the load is compared first.
#[derive(Clone, Copy, PartialEq, Eq, Debug)]
pub struct Peak;

impl Measure for Peak {
    type Value = (u16, u16);

    ghost scale = { λ _. peak };

    fn start(&self) -> (u16, u16) {
        (0, 0)
    }

    fn extend(&self, value: (u16, u16), load: u16) -> (u16, u16) {
        let (largest, hops) = value;
        if load > largest {
            (load, 1)
        } else if load < largest {
            value
        } else {
            (largest, hops.saturating_add(1))
        }
    }

    fn not_above(&self, p: (u16, u16), q: (u16, u16)) -> bool {
        p.0 < q.0 || (p.0 == q.0 && p.1 <= q.1)
    }

    ghost ordered = { λ _. peak_ordered };

    ghost antisymmetric = { λ _. peak_antisymmetric };
}
