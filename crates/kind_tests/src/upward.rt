// A policy that no program has, and that asks for no rules.
ghost use Rattle.std.specs.Prelude.{◌≡◌, ◌<◌, length, refl};
ghost use Rattle.kind_tests.specs.Upward.{terms_of, fails, upward};
ghost use Rattle.kind_tests.specs.UpwardLaw.{upward_safe, upward_reopens};

use crate::check::Check;
use layouts::ways::Ways;
use policies::policy::Policy;
use routes::declined::Declined;
use routes::hop::Hop;
use routes::judge::{Limits, judge_fields};
use routes::load::link_load;
use routes::route::Route;
use routes::stream::Request;

/// Streams go upward: from hop to hop the number of the link rises. So it is a rank that rises along every route, and no link
/// stands twice. The lanes are free.
pub struct Upward;

// Whether hop k fails a check.
fn fails<W: Ways>(
    ways: &W,
    limits: Limits<'_>,
    request: Request,
    hops: &[Hop],
    check: Check,
    k: usize,
) -> bool
    requires { k < length hops.now }
    ensures { result
        ≡ fails (terms_of (W.topology ways.now) limits.entry) request hops.now check k }
{
    let hop = hops[k];
    match check {
        Check::OnGrid => hop.link >= ways.links() || u16::from(hop.lane) >= limits.lanes,
        Check::Start => k == 0 && ways.start(hop.link) != request.source,
        Check::Joint => k > 0 && ways.end(hops[k - 1].link) != ways.start(hop.link),
        Check::Number => k > 0 && hops[k - 1].link >= hop.link,
        Check::End => k + 1 == hops.len() && ways.end(hop.link) != request.target,
        Check::Capacity => u64::from(link_load(limits.streams, hop.link))
            + u64::from(request.demand)
            > u64::from(limits.capacity),
    }
}

impl<W: Ways> Policy<W> for Upward {
    ghost kind = { λ ways. upward (W.topology ways) };

    ghost on_ways = { λ ways. record { tiles = refl; links = refl } };

    ghost safe = { λ ways. upward_safe (W.topology ways) };

    ghost reopens = { λ ways. upward_reopens (W.topology ways) };

    fn judge(ways: &W, limits: Limits<'_>, request: Request, hops: &[Hop]) -> Result<(), Declined> {
        judge_fields(ways, request)?;
        Route::new(hops)?;
        for check in Check::all() {
            if let Some(k) = (0..hops.len()).find(|k| fails(
                ways, limits, request, hops, check, *k,
            )) {
                return Err(Declined {
                    refusal: check.into(),
                    hop: Some(k),
                });
            }
        }
        Ok(())
    }
}
