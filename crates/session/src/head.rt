// The head under which the plan of a grid is written.
ghost use Rattle.std.specs.Prelude.{◌≡◌, Some};
ghost use Rattle.codec.specs.Heads.{rule_numbered};
ghost use Rattle.session.specs.Heads.{rule_number, head_of};

use codec::head::Head;
use layouts::turn_rule::TurnRule;

// The number of a turn rule.
fn rule_number(rule: TurnRule) -> u16
    ensures value { result ≡ rule_number rule }
    ensures back { rule_numbered result ≡ Some rule }
{
    match rule {
        TurnRule::Xy => 1,
        TurnRule::WestFirst => 2,
        TurnRule::NorthLast => 3,
        TurnRule::NegativeFirst => 4,
    }
}

/// The head of a grid: what its mesh and its tables are made of.
pub(crate) fn head_of(
    rule: TurnRule,
    width: u16,
    height: u16,
    lanes: u16,
    depth: u16,
    capacity: u16,
) -> Head
    ensures { result ≡ head_of rule width height lanes depth capacity }
{
    Head {
        version: 1,
        rule: rule_number(rule),
        width,
        height,
        lanes,
        depth,
        capacity,
    }
}
