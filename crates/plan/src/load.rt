// Loading a plan on a grid.
ghost use Rattle.std.specs.Prelude.{◌≡◌, ◌≤◌, length, take, IfOk, MatchResult};
ghost use Rattle.codec.specs.Sequences.{behind};
ghost use Rattle.codec.specs.Records.{hops_read, hops_in, record_at, entry_of, ReadsRecord};
ghost use Rattle.plan.specs.Loads.{accepted_head, sizes_of, OpensRecord, Loads};
ghost use Rattle.plan.specs.RoundTrips.{WrittenBack};

use crate::fault::{InRecord, LoadFault, PlanFault};
use codec::head::{GridSizes, HeadNumbers, judge_head, read_head};
use codec::hop::hop_of;
use codec::number::{ByteFault, read_number};
use codec::record::{Record, hops_read, read_record};
use grid::grid::Grid;
use layouts::ways::Ways;
use policies::policy::Policy;
use refusals::refusal::Refusal;
use routes::declined::Declined;
use routes::hop::Hop;

// What a head has to fit.
pub(crate) fn sizes_of<W: Ways, P: Policy<W>>(grid: &Grid<W, P>) -> GridSizes
    ensures value { result ≡ sizes_of grid.now.tables }
    ensures bound { result.capacity ≤ 65535 }
{
    GridSizes {
        lanes: grid.size().lanes(),
        depth: grid.size().depth(),
        capacity: grid.capacity(),
    }
}

// The head of a plan, if it is allowed and fits.
pub(crate) fn accepted_head(plan: &[u8], sizes: GridSizes) -> Result<HeadNumbers, LoadFault>
    ensures { result ≡ accepted_head sizes plan.now }
{
    let numbers = read_head(plan)?;
    let judged = judge_head(&numbers.head(), numbers.count.value, sizes);
    if let Err(fault) = judged {
        return Err(PlanFault {
            refusal: fault.refusal,
            place: numbers.place(fault.part),
        }
        .into());
    }
    Ok(numbers)
}

// The hops that these bytes hold, so many, at the front of a table.
fn hops_in(bytes: &[u8], count: u16) -> [Hop; 24]
    requires all { behind bytes.now 0 count ≡ Ok (length bytes.now) }
    requires few { count ≤ 24 }
    ensures { take count result ≡ hops_in bytes.now count }
{
    let mut hops = [Hop { link: 0, lane: 0 }; 24];
    let mut place = 0;
    for k in 0..usize::from(count) {
        let number = read_number(bytes, place).unwrap();
        hops[k] = hop_of(number.value);
        place = number.next;
    }
    hops
}

// Reads the record of a number, which starts at a byte of a plan.
fn read(plan: &[u8], number: usize, place: usize) -> Result<Record<'_>, InRecord<ByteFault>>
    ensures { MatchResult result (λ told. ReadsRecord plan.now place (Ok told))
        (λ f. (f.number ≡ number) × (record_at plan.now place ≡ Err f.fault)) }
{
    // a match and not `map_err`, since what a record holds of the plan is lost in a closure
    match read_record(plan, place) {
        Ok(told) => Ok(told),
        Err(fault) => Err(InRecord { number, fault }),
    }
}

// Opens the stream of the record of a number.
fn open<W: Ways, P: Policy<W>>(
    grid: &mut Grid<W, P>,
    number: usize,
    told: Record<'_>,
) -> Result<(), InRecord<Declined>>
    requires { behind told.hops.now 0 (hops_read told.count) ≡ Ok (length told.hops.now) }
    ensures made { OpensRecord (P.kind grid.old.layout) grid.old.tables number
        (entry_of told.entry) result grid.new.tables }
    ensures layout { grid.new.layout ≡ grid.old.layout }
{
    let count = hops_read(told.count);
    let hops = hops_in(told.hops, count);
    match grid.open(told.stream, told.request, &hops[..usize::from(count)]) {
        Ok(()) => Ok(()),
        Err(fault) => Err(InRecord { number, fault }),
    }
}

/// Loads a plan: judges its head, and opens the streams of its records one after another as `Grid::open` does. Answers the count of records. The
/// streams of the records ahead of a fault stay open; nothing else of the grid has changed then.
///
/// Fails, in this order, by `HeadBytes` where a number of the head cannot be read, and by `Plan` with what `judge_head` refuses of the head, whose
/// rule, width and height are not compared with the grid's layout; then, record by record, by `RecordBytes` where a number of it cannot be read,
/// and by `Grid` with what `Grid::open` refuses; and last by `Plan` with `TrailingBytes` where bytes stand behind the last record.
///
/// A plan that has loaded on a grid without streams, its streams in rising number, is what `write` writes of the grid then. One that has loaded has at
/// most 3530 bytes.
pub fn load<W: Ways, P: Policy<W>>(grid: &mut Grid<W, P>, plan: &[u8]) -> Result<usize, LoadFault>
    ensures made { Loads (P.kind grid.old.layout) grid.old.tables plan.now result grid.new.tables }
    ensures layout { grid.new.layout ≡ grid.old.layout }
    ensures written_back { IfOk result
        (λ _. WrittenBack (P.kind grid.old.layout) grid.old.tables plan.now grid.new.tables) }
    ensures short { IfOk result (λ _. length plan.now ≤ 3530) }
{
    let head = accepted_head(plan, sizes_of(grid))?;
    let count = usize::from(head.count.value);
    let mut place = head.count.next;
    for number in 0..count {
        let told = read(plan, number, place)?;
        open(grid, number, told)?;
        place = told.next;
    }
    if place < plan.len() {
        return Err(PlanFault {
            refusal: Refusal::TrailingBytes,
            place,
        }
        .into());
    }
    Ok(count)
}
