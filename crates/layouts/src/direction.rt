// The ways in which a link of a mesh can lead.

/// The way in which a link of a mesh leads.
#[derive(Clone, Copy)]
pub enum Direction {
    /// One column up.
    East,
    /// One column down.
    West,
    /// One row up.
    North,
    /// One row down.
    South,
}
