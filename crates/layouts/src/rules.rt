// The interface of all rules.
ghost use Rattle.std.specs.Prelude.{◌≡◌};
ghost use Rattle.layouts.specs.Layout.{TurnModel, MeetUnlessNever, TurnLaw, NoTurns};

use crate::turn::Turn;
use crate::ways::Ways;

/// Ways with a word for every two links in a row: a layout.
///
/// Rules are known by their turns: the word for each two links, and a height for each link that no call tells.
pub trait Rules: Ways {
    // what the rules answer, and how high the links lie
    ghost turns: { Self → TurnModel };

    /// How a route may take link b right after link a: `Never` where either is no link. The two meet, end to start,
    /// unless it is `Never`.
    fn turn(&self, a: u16, b: u16) -> Turn
        ensures word { result ≡ (turns self.now).turn a b }
        ensures meets { MeetUnlessNever (Self.topology self.now) a b result };

    // the law of turns: links meet unless the word is *never*, and a free turn leads higher
    ghost turn_law: { (rules : Self) → TurnLaw (Self.topology rules) (turns rules) };

    // the answers for numbers that are no link's
    ghost no_turns: { (rules : Self) → NoTurns (Self.topology rules) (turns rules) };
}
