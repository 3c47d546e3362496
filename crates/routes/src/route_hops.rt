// A route and the list of its hops.
ghost use Rattle.std.specs.Prelude.{◌≡◌, true, false, MatchResult};
ghost use Rattle.refusals.specs.declared.refusal.Refusal.TheVariants.{HopCount};
ghost use Rattle.routes.specs.Routes.{hops_of, count_fits};

use crate::hop::Hop;
use crate::route::Route;
use refusals::refusal::Refusal;

/// Whether a route can have these hops: 1 to 24 of them.
pub(crate) fn count_fits(hops: &[Hop]) -> bool
    ensures { result ≡ count_fits hops.now }
{
    hops.len() > 0 && hops.len() <= 24
}

impl Route {
    // Not `TryFrom<&[Hop]>`: a caller with an array would have to write `&hops[..]`.
    /// The route of these hops. Refuses no hop, and more than 24, by `HopCount`.
    pub fn new(hops: &[Hop]) -> Result<Route, Refusal>
        ensures { MatchResult result (λ route. (count_fits hops.now ≡ true) × (hops_of route ≡ hops.now)) (λ e. (count_fits hops.now ≡ false) × (e ≡ HopCount)) }
    {
        if !count_fits(hops) {
            return Err(Refusal::HopCount);
        }
        let count = hops.len();
        let mut table = [Hop { link: 0, lane: 0 }; 24];
        table[..count].copy_from_slice(hops);
        Ok(Route {
            table,
            // proved to lose nothing
            count: count as u8,
        })
    }

    /// The hops, first to last.
    pub fn hops(&self) -> &[Hop]
        ensures { result.now ≡ hops_of self.now }
    {
        &self.table[..usize::from(self.count)]
    }
}
