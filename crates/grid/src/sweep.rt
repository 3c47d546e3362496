// What a sweep tells.

/// How many steps of a sweep went, and how many items came out.
#[derive(Clone, Copy, PartialEq, Eq, Debug)]
pub struct Sweep {
    /// The steps that went.
    pub steps: usize,
    /// The items that came out.
    pub items: usize,
}
