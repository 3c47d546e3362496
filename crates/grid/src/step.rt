// What a step answers.

/// What became of the front item of a lane.
#[derive(Clone, Copy, PartialEq, Eq, Debug)]
pub enum Step<T> {
    /// An item of this stream went on to the next hop of its route.
    Moved(u16),
    /// This item of this stream was on the last hop of its route and left the grid.
    Out(u16, T),
}
