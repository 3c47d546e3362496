// The policy of every layout with rules.
ghost use Rattle.std.specs.Prelude.{◌≡◌, refl};
ghost use Rattle.layouts.specs.Layout.{meaning_by, lawful_by};
ghost use Rattle.model.specs.Kinds.{by_rules};
ghost use Rattle.model.proofs.Ranks.{lawful_safe};
ghost use Rattle.model.proofs.Reopening.{rules_reopen};

use crate::policy::Policy;
use crate::table_policy::TablePolicy;
use layouts::rules::Rules;
use routes::declined::Declined;
use routes::hop::Hop;
use routes::judge::{Limits, TableLimits, judge, judge_by_table};
use routes::stream::Request;

/// Streams climb: from hop to hop the lane rises, or it stays and the link lies higher. So lane and height are a rank that
/// rises along every route.
pub struct Climbing;

impl<L: Rules> Policy<L> for Climbing {
    ghost kind = { λ layout. by_rules (meaning_by L.topology L.turns layout) };

    ghost on_ways = { λ layout. record { tiles = refl; links = refl } };

    ghost safe = { λ layout. lawful_safe (meaning_by L.topology L.turns layout)
        (lawful_by (L.ways_law layout) (L.turn_law layout)) };

    ghost reopens = { λ layout. rules_reopen (meaning_by L.topology L.turns layout) };

    fn judge(ways: &L, limits: Limits<'_>, request: Request, hops: &[Hop]) -> Result<(), Declined> {
        judge(ways, limits, request, hops)
    }
}

impl<L: Rules> TablePolicy<L> for Climbing {
    fn judge_by_table(
        ways: &L,
        limits: TableLimits<'_>,
        request: Request,
        hops: &[Hop],
    ) -> Result<(), Declined> {
        judge_by_table(ways, limits, request, hops)
    }
}
