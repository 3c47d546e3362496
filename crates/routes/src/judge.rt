// The judgement of a route.
ghost use Rattle.std.specs.Prelude.{◌≡◌, ◌<◌, length};
ghost use Rattle.layouts.specs.Layout.{meaning_by};
ghost use Rattle.routes.specs.Firsts.{first_of};
ghost use Rattle.routes.specs.Checks.{terms_of, table_terms, field_checks, lanes_fit, fails, verdict};
ghost use Rattle.routes.specs.Acceptable.{Judges};

use crate::check::Check;
use crate::declined::Declined;
use crate::hop::Hop;
use crate::load::link_load_by_table;
use crate::route_hops::count_fits;
use crate::stream::{Request, Stream, uses_link};
use layouts::rules::Rules;
use layouts::turn::Turn;
use layouts::ways::Ways;
use refusals::refusal::Refusal;

/// What routes are judged by, next to the ways that they lie on.
#[derive(Clone, Copy)]
pub struct Limits<'a> {
    /// How many lanes each link has.
    pub lanes: u16,
    /// How much demand each link can bear.
    pub capacity: u16,
    /// The open streams by their numbers, which load the links.
    pub streams: &'a [Option<Stream>; 64],
}

/// The same with a table of open streams of any length, such as an empty one where nothing bears a load.
#[derive(Clone, Copy)]
pub struct TableLimits<'a> {
    /// How many lanes each link has.
    pub lanes: u16,
    /// How much demand each link can bear.
    pub capacity: u16,
    /// The open streams by their numbers, which load the links; a number past the end is not open.
    pub streams: &'a [Option<Stream>],
}

impl<'a> Limits<'a> {
    /// The same limits, with the table as one of any length.
    pub fn by_table(self) -> TableLimits<'a>
        ensures lanes { result.lanes ≡ self.entry.lanes }
        ensures capacity { result.capacity ≡ self.entry.capacity }
        ensures streams { result.streams.now ≡ self.entry.streams.now }
    {
        let streams = self.streams;
        TableLimits {
            lanes: self.lanes,
            capacity: self.capacity,
            streams,
        }
    }
}

// Whether a route may go from one lane to another at a turn.
fn lanes_fit(turn: Turn, from: u8, to: u8) -> bool
    ensures { result ≡ lanes_fit turn from to }
{
    match turn {
        Turn::Climb => from < to,
        Turn::Never | Turn::Free => from <= to,
    }
}

// Whether hop k fails a check.
fn fails<L: Rules>(
    layout: &L,
    limits: TableLimits<'_>,
    request: Request,
    hops: &[Hop],
    check: Check,
    k: usize,
) -> bool
    requires { k < length hops.now }
    ensures { result ≡ fails (table_terms (meaning_by L.topology L.turns layout.now) limits.entry)
        request hops.now check k }
{
    let hop = hops[k];
    // A match and not a closure for each check: which checks there are and in which order is then a value, `Check::all`.
    match check {
        Check::OnGrid => hop.link >= layout.links() || u16::from(hop.lane) >= limits.lanes,
        Check::Start => k == 0 && layout.start(hop.link) != request.source,
        Check::Turn => k > 0 && layout.turn(hops[k - 1].link, hop.link) == Turn::Never,
        Check::Lane => k > 0
            && !lanes_fit(
                layout.turn(hops[k - 1].link, hop.link),
                hops[k - 1].lane,
                hop.lane,
            ),
        Check::End => k + 1 == hops.len() && layout.end(hop.link) != request.target,
        Check::Once => uses_link(&hops[..k], hop.link),
        Check::Capacity => u64::from(link_load_by_table(limits.streams, hop.link))
            + u64::from(request.demand)
            > u64::from(limits.capacity),
    }
}

/// Judges the fields of a stream. Refuses a source or a target that is no tile of the ways, and both the same, by
/// `BadEndpoints`, and then a demand of 0 by `ZeroAmount`.
pub fn judge_fields<W: Ways>(ways: &W, request: Request) -> Result<(), Declined>
    ensures { result ≡ verdict (first_of (field_checks (W.topology ways.now).tiles request)) }
{
    let tiles = ways.tiles();
    if request.source >= tiles || request.target >= tiles || request.source == request.target {
        return Err(Refusal::BadEndpoints.into());
    }
    if request.demand == 0 {
        return Err(Refusal::ZeroAmount.into());
    }
    Ok(())
}

/// Judges a route of these hops for a stream of these fields. It is refused exactly where it is not acceptable, by the first
/// of these refusals:
///
/// - what `judge_fields` refuses;
/// - no hop, or more than 24, by `HopCount`;
/// - a link or a lane that is not there by `OffGrid`;
/// - a first link that does not start at the source by `WrongStart`;
/// - two hops in turn of which the layout tells *never* by `NoTurn`;
/// - a lane that falls, or does not rise where the layout tells *climb*, by `LaneTooLow`;
/// - a last link that does not end at the target by `WrongEnd`;
/// - a link that stands twice by `RepeatedLink`;
/// - a link whose load would pass the capacity by `OverCapacity`.
///
/// From `OffGrid` on, each is looked for over the whole route ahead of the next, and is told with the first hop that is to
/// blame: of two hops in turn the second, of a link that stands twice the later hop.
pub fn judge<L: Rules>(
    layout: &L,
    limits: Limits<'_>,
    request: Request,
    hops: &[Hop],
) -> Result<(), Declined>
    ensures { Judges (terms_of (meaning_by L.topology L.turns layout.now) limits.entry)
        request hops.now result }
{
    judge_by_table(layout, limits.by_table(), request, hops)
}

/// Judges as `judge` does, by a table of open streams of any length.
pub fn judge_by_table<L: Rules>(
    layout: &L,
    limits: TableLimits<'_>,
    request: Request,
    hops: &[Hop],
) -> Result<(), Declined>
    ensures { Judges (table_terms (meaning_by L.topology L.turns layout.now) limits.entry)
        request hops.now result }
{
    judge_fields(layout, request)?;
    if !count_fits(hops) {
        return Err(Refusal::HopCount.into());
    }
    for check in Check::all() {
        if let Some(k) = (0..hops.len()).find(|k| fails(layout, limits, request, hops, check, *k)) {
            return Err(Declined {
                refusal: check.into(),
                hop: Some(k),
            });
        }
    }
    Ok(())
}
