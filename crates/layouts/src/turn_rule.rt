// The turn rules of a mesh.
ghost use Rattle.std.specs.Prelude.{◌≡◌};
ghost use Rattle.layouts.specs.Rules.{barred, turn_of};

use crate::direction::Direction;
use crate::link::Span;
use crate::turn::Turn;

/// Which turns of a mesh ask for a higher lane, so that no circle of links is left on one lane.
#[derive(Clone, Copy, PartialEq, Eq, Debug)]
pub enum TurnRule {
    /// First along the row, then along the column: north and south to east and west are barred.
    Xy,
    /// A way west comes first: north and south to west are barred.
    WestFirst,
    /// A way north comes last: north to east and west are barred.
    NorthLast,
    /// West and south come first: east to south and north to west are barred.
    NegativeFirst,
}

impl TurnRule {
    /// Whether the rule bars the turn from one direction to another at a tile of this column.
    pub fn bars(self, from: Direction, to: Direction, column: u16) -> bool
        ensures { result ≡ barred self from to column }
    {
        // A match and not a closure for each rule: the rule is read from input, and all are told in one definition.
        match (self, from, to) {
            (
                TurnRule::Xy,
                Direction::North | Direction::South,
                Direction::East | Direction::West,
            ) => true,
            (TurnRule::WestFirst, Direction::North | Direction::South, Direction::West) => true,
            (TurnRule::NorthLast, Direction::North, Direction::East | Direction::West) => true,
            (TurnRule::NegativeFirst, Direction::East, Direction::South) => true,
            (TurnRule::NegativeFirst, Direction::North, Direction::West) => true,
            _ => false,
        }
    }

    /// What a mesh under this rule tells of one link followed by another.
    pub(crate) fn turn(self, from: Span, to: Span) -> Turn
        ensures { result ≡ turn_of self from to }
    {
        if from.end != to.start || to.end == from.start {
            Turn::Never
        } else if self.bars(from.link.direction, to.link.direction, to.link.x) {
            Turn::Climb
        } else {
            Turn::Free
        }
    }
}
