// The records of a plan.
ghost use Rattle.std.specs.Prelude.{◌≡◌, ◌≤◌, ◌-◌, length, slice_range, IfOk};
ghost use Rattle.codec.specs.Sequences.{behind, numbers_bytes};
ghost use Rattle.codec.specs.Records.{hops_read, record_numbers, entry_of, ReadsRecord};

use crate::number::{ByteFault, read_number};
use routes::stream::Request;

/// A record of a plan: a stream, what it asks for, and its hops, whose bytes are a part of the plan itself.
#[derive(Clone, Copy)]
pub struct Record<'a> {
    /// The number of the stream.
    pub stream: u16,
    /// What the stream asks for.
    pub request: Request,
    /// The count of its hops, as it is written.
    pub count: u16,
    /// The bytes of the hops: those of the plan from `place` up to `next`. Where the count is above 24, no hop is read, and they are none.
    pub hops: &'a [u8],
    /// The byte of the plan at which the hops start.
    pub place: usize,
    /// The byte of the plan behind the last hop that is read.
    pub next: usize,
}

/// How many hops are read of a record that counts so many: none where the count is above 24.
pub fn hops_read(count: u16) -> u16
    ensures { result ≡ hops_read count }
{
    if count > 24 { 0 } else { count }
}

// The byte behind so many numbers, the first of which starts at a byte of the plan.
#[tactic(auto, using(crate::proofs::Sequences::behind_none, crate::proofs::Sequences::behind_step))]
fn skip_numbers(plan: &[u8], place: usize, count: u16) -> Result<usize, ByteFault>
    requires { place ≤ length plan.now }
    ensures value { result ≡ behind plan.now place count }
    ensures within { IfOk result (λ next. (place ≤ next) × (next ≤ length plan.now)) }
{
    let mut next = place;
    for _ in 0..count {
        next = read_number(plan, next)?.next;
    }
    Ok(next)
}

/// Reads the record that starts at a byte of a plan; none of its numbers is judged. Fails with the fault of the first that cannot be
/// read.
pub fn read_record(plan: &[u8], place: usize) -> Result<Record<'_>, ByteFault>
    ensures value { ReadsRecord plan.now place result }
    ensures stands { IfOk result (λ r. r.count ≤ 24 → slice_range plan.now place r.next ≡ numbers_bytes (record_numbers r.stream r.request (entry_of r).hops)) }
{
    let stream = read_number(plan, place)?;
    let source = read_number(plan, stream.next)?;
    let target = read_number(plan, source.next)?;
    let demand = read_number(plan, target.next)?;
    let count = read_number(plan, demand.next)?;
    let next = skip_numbers(plan, count.next, hops_read(count.value))?;
    Ok(Record {
        stream: stream.value,
        request: Request {
            source: source.value,
            target: target.value,
            demand: demand.value,
        },
        count: count.value,
        hops: &plan[count.next..next],
        place: count.next,
        next,
    })
}
