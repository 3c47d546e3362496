// What links bear with a new demand.
ghost use Rattle.std.specs.Prelude.{◌≡◌, ℕ, ◌+◌, None, slice_index_or};
ghost use Rattle.layouts.specs.Layout.{meaning_by};
ghost use Rattle.routes.specs.Routes.{streams_of};
ghost use Rattle.routes.specs.Loads.{load};
ghost use Rattle.routes.specs.Checks.{table_terms};
ghost use Rattle.search.specs.Walks.{borne, cost_of};

use layouts::rules::Rules;
use layouts::ways::Ways;
use routes::judge::TableLimits;
use routes::load::link_load_by_table;
use routes::stream::Request;

// The load of a link with the demand added, unless that passes the capacity.
fn cost(limits: TableLimits<'_>, demand: u16, link: u16) -> Option<u16>
    ensures { result ≡ borne limits.entry.capacity
        (load (streams_of limits.entry.streams.now) link + demand) }
{
    let cost = u64::from(link_load_by_table(limits.streams, link)) + u64::from(demand);
    if cost > u64::from(limits.capacity) {
        return None;
    }
    // proved to lose nothing
    Some(cost as u16)
}

/// What each link bears with the demand added, and none for a link that cannot. Each load is summed once.
pub(crate) fn costs<L: Rules>(
    layout: &L,
    limits: TableLimits<'_>,
    request: Request,
) -> [Option<u16>; 256]
    ensures { (link : ℕ) → slice_index_or result link None ≡ cost_of
        (table_terms (meaning_by L.topology L.turns layout.now) limits.entry) request link }
{
    let mut costs = [None; 256];
    for link in 0..layout.links() {
        costs[usize::from(link)] = cost(limits, request.demand, link);
    }
    costs
}
