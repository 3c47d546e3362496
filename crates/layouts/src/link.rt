// The links of a mesh by where they lie.
use crate::direction::Direction;

/// A link of a mesh: its direction, and the column and row of the tile that it leaves.
#[derive(Clone, Copy)]
pub(crate) struct MeshLink {
    /// The way in which it leads.
    pub direction: Direction,
    /// The column of the tile that it leaves.
    pub x: u16,
    /// The row of that tile.
    pub y: u16,
}

/// The same with the numbers of the two tiles that it joins.
#[derive(Clone, Copy)]
pub(crate) struct Span {
    /// The link.
    pub link: MeshLink,
    /// The tile that it leaves.
    pub start: u16,
    /// The tile that it leads to.
    pub end: u16,
}
