// What a drain tells.

/// How many sweeps it took until no item was on the grid, how many of their steps went, and how many items came out.
#[derive(Clone, Copy, PartialEq, Eq, Debug)]
pub struct Drain {
    /// The sweeps.
    pub sweeps: usize,
    /// The steps that went.
    pub steps: usize,
    /// The items that came out.
    pub items: usize,
}
