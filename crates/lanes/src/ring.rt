// The ring of one lane.

/// Where the items of a lane stand among its places: the place of the first, and how many there are, round the depth.
///
/// A ring by hand and not a `VecDeque`, since the places are slots that the caller lends at each call.
#[derive(Clone, Copy)]
pub(crate) struct Ring {
    pub(crate) first: u16,
    pub(crate) count: u16,
}
