// One of two measures, chosen while the program runs.
ghost use Rattle.search.specs.Scales.{choice};
ghost use Rattle.search.specs.ScaleLaws.{choice_ordered, choice_antisymmetric};

use crate::measure::Measure;

/// A value of one of two measures.
#[derive(Clone, Copy, PartialEq, Eq, Debug)]
pub enum Either<V, W> {
    /// A value of the first; it is below every value of the second.
    First(V),
    /// A value of the second.
    Second(W),
}

/// Two measures, and which of them is meant. So calls of one type can have different measures.
#[derive(Clone, Copy, PartialEq, Eq, Debug)]
pub struct Choice<A, B> {
    /// The measure that is meant unless `is_second`.
    pub first: A,
    /// The measure that is meant if `is_second`.
    pub second: B,
    /// Whether the second is meant.
    pub is_second: bool,
}

impl<A: Measure, B: Measure> Measure for Choice<A, B> {
    type Value = Either<A::Value, B::Value>;

    ghost scale = { λ c. choice c.is_second (A.scale c.first) (B.scale c.second) };

    fn start(&self) -> Either<A::Value, B::Value> {
        if self.is_second {
            Either::Second(self.second.start())
        } else {
            Either::First(self.first.start())
        }
    }

    fn extend(&self, value: Either<A::Value, B::Value>, load: u16) -> Either<A::Value, B::Value> {
        match value {
            Either::First(v) => Either::First(self.first.extend(v, load)),
            Either::Second(w) => Either::Second(self.second.extend(w, load)),
        }
    }

    fn not_above(&self, p: Either<A::Value, B::Value>, q: Either<A::Value, B::Value>) -> bool {
        match (p, q) {
            (Either::First(v), Either::First(w)) => self.first.not_above(v, w),
            (Either::First(_), Either::Second(_)) => true,
            (Either::Second(_), Either::First(_)) => false,
            (Either::Second(v), Either::Second(w)) => self.second.not_above(v, w),
        }
    }

    ghost ordered = { λ c. choice_ordered c.is_second (A.scale c.first) (B.scale c.second)
        (A.ordered c.first) (B.ordered c.second) };

    ghost antisymmetric = { λ c. choice_antisymmetric c.is_second (A.scale c.first)
        (B.scale c.second) (A.antisymmetric c.first) (B.antisymmetric c.second) };
}
