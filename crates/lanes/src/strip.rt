// Strips.

/// A strip of a picture.
#[derive(Clone, Copy, PartialEq, Eq, Debug)]
pub struct Strip {
    /// The fragment that it shows.
    pub fragment: u32,
    /// The band that it was taken in.
    pub band: u8,
    /// Its row in the picture.
    pub row: u16,
}
