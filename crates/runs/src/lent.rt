// What is lent to the calls of a run.

/// What is lent to all calls of a run: slots for the items, scratch for openings that search for their routes, and two tables for
/// what comes out by sweeps. Every sweep writes these from their front, over what the one before wrote; no other call touches them.
#[derive(Drop)]
pub struct Lent<'a, T, V> {
    /// The item slots.
    pub slots: &'a mut [T],
    /// The values of a search.
    pub values: &'a mut [V],
    /// The marks of a search.
    pub marks: &'a mut [u16],
    /// The streams of the items that come out by a sweep.
    pub streams: &'a mut [u16],
    /// The items that come out by a sweep.
    pub items: &'a mut [T],
}
