// The beat of a rehearsal.
ghost use Rattle.std.specs.Prelude.{◌≤◌};

/// How many strips a stream tries to send in a turn. In each turn it tries at least one.
#[derive(Clone, Copy, PartialEq, Eq, Debug)]
pub enum Beat {
    /// One strip in each turn.
    Even,
    /// One, two or three strips, by turns, and not all streams the same.
    Uneven,
}

impl Beat {
    // How many strips a stream tries to send in a turn.
    pub(crate) fn tries(self, turn: u64, stream: u8) -> u8
        ensures { 1 ≤ result }
    {
        match self {
            Beat::Even => 1,
            Beat::Uneven => match (turn % 3, stream % 3) {
                (0, 0) | (1, 2) | (2, 1) => 1,
                (0, 1) | (1, 0) | (2, 2) => 2,
                _ => 3,
            },
        }
    }
}
