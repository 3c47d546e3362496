// Hops.

/// A link with one of its lanes.
#[derive(Clone, Copy, PartialEq, Eq, Debug)]
pub struct Hop {
    /// The number of the link.
    pub link: u16,
    /// The number of the lane, counted from 0 on each link.
    pub lane: u8,
}
