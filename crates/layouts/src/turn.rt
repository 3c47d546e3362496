// Turns.
ghost use Rattle.std.specs.Prelude.{Some};
ghost use Rattle.layouts.specs.Turns.{word_of};

use std::fmt;

/// What a layout tells of a link a followed by a link b.
#[derive(Clone, Copy, PartialEq, Eq, Debug)]
pub enum Turn {
    /// No route goes from a to b.
    Never,
    /// A route may go from a to b on the same lane or a higher one.
    Free,
    /// A route may go from a to b on a higher lane only.
    Climb,
}

/// Writes the turn as one word: `never`, `free` or `climb`.
impl fmt::Display for Turn {
    ghost output = { λ turn. Some (word_of turn) };

    fn fmt<W: fmt::Write>(&self, f: &mut fmt::Formatter<W>) -> fmt::Result {
        match self {
            Turn::Never => f.write_str("never"),
            Turn::Free => f.write_str("free"),
            Turn::Climb => f.write_str("climb"),
        }
    }
}
