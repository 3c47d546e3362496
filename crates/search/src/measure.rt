// The interface of all measures.
ghost use Rattle.std.specs.Prelude.{◌≡◌};
ghost use Rattle.search.specs.Scales.{Scale, Ordered, Antisymmetric};

/// What a route measures: a value that each hop extends by the load of its link, and an order of the values.
///
/// A measure is known by its scale, the record of its answers.
pub trait Measure {
    /// The kind of value that the measure counts in.
    type Value: Copy;

    // what the measure answers
    ghost scale: { Self → Scale Self.Value };

    /// The value of no hop.
    fn start(&self) -> Self::Value
        ensures { result ≡ (scale self.now).start };

    /// A value extended by the load of one more hop's link.
    fn extend(&self, value: Self::Value, load: u16) -> Self::Value
        ensures { result ≡ (scale self.now).extend value load };

    /// Whether p is not above q, in the order of the measure.
    fn not_above(&self, p: Self::Value, q: Self::Value) -> bool
        ensures { result ≡ (scale self.now).not_above p q };

    // the laws that the search rests on
    ghost ordered: { (measure : Self) → Ordered (scale measure) };

    // that values which are not above each other are the same; the search does not rest on it
    ghost antisymmetric: { (measure : Self) → Antisymmetric (scale measure) };
}
