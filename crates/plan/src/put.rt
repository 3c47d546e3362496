// How numbers are written behind one another.
ghost use Rattle.std.specs.Prelude.{◌≡◌, ◌≤◌, ◌<◌, ◌+◌, ◌∷◌, ◌++◌, [], length, map, nat_le, true};
ghost use Rattle.std.specs.List.{list_all};
ghost use Rattle.arrayvec.specs.ArrayVec.{array_vec_len};
ghost use Rattle.routes.specs.Routes.{hops_of, stream_of};
ghost use Rattle.codec.specs.Numbers.{number_bytes};
ghost use Rattle.codec.specs.Sequences.{numbers_bytes};
ghost use Rattle.codec.specs.Records.{hop_number};
ghost use Rattle.plan.specs.Plans.{stream_numbers};
ghost use Rattle.codec.specs.Heads.{head_numbers};

use arrayvec::ArrayVec;
use codec::head::Head;
use routes::hop::Hop;
use routes::stream::Stream;

/// The bytes of a plan, of which there are at most 3530: a head has 10, and each of 64 records 7 and two for each of 24 hops.
pub(crate) type PlanBytes = ArrayVec<u8, 3530>;

// Writes a number behind the bytes of a plan.
#[tactic(auto, unfolding(codec::specs::Numbers::number_bytes))]
fn put_number(plan: &mut PlanBytes, n: u16)
    requires { length plan.old.items + length (number_bytes n) ≤ 3530 }
    ensures { plan.new.items ≡ plan.old.items ++ number_bytes n }
{
    // the casts are proved to lose nothing
    if n < 128 {
        plan.push(n as u8);
        return;
    }
    plan.push((128 + n % 128) as u8);
    if n < 16384 {
        plan.push((n / 128) as u8);
        return;
    }
    plan.push((128 + n / 128 % 128) as u8);
    plan.push((n / 16384) as u8);
}

// Writes numbers behind the bytes of a plan.
fn put_numbers(plan: &mut PlanBytes, numbers: &[u16])
    requires { length plan.old.items + length (numbers_bytes numbers.now) ≤ 3530 }
    ensures { plan.new.items ≡ plan.old.items ++ numbers_bytes numbers.now }
{
    for n in numbers {
        put_number(plan, *n);
    }
}

// Writes the head of a plan of so many streams.
#[tactic(auto, unfolding(codec::specs::Heads::head_numbers))]
pub(crate) fn put_head(plan: &mut PlanBytes, head: &Head, count: u16)
    requires { length plan.old.items + length (numbers_bytes (head_numbers head.now count)) ≤ 3530 }
    ensures { plan.new.items ≡ plan.old.items ++ numbers_bytes (head_numbers head.now count) }
{
    let numbers = [
        head.version,
        head.rule,
        head.width,
        head.height,
        head.lanes,
        head.depth,
        head.capacity,
        count,
    ];
    put_numbers(plan, &numbers);
}

// The number of a hop.
fn hop_number(hop: Hop) -> u16
    requires { hop_number hop ≤ 65535 }
    ensures { result ≡ hop_number hop }
{
    hop.link * 4 + u16::from(hop.lane)
}

// Writes the numbers of hops.
fn put_hops(plan: &mut PlanBytes, hops: &[Hop])
    requires room { length plan.old.items
        + length (numbers_bytes (map hop_number hops.now)) ≤ 3530 }
    requires small { list_all (λ h. nat_le (hop_number h) 65535) hops.now ≡ true }
    ensures { plan.new.items ≡ plan.old.items ++ numbers_bytes (map hop_number hops.now) }
{
    for hop in hops {
        put_number(plan, hop_number(*hop));
    }
}

// Writes the record of a stream.
#[tactic(auto, unfolding(codec::specs::Records::record_numbers))]
pub(crate) fn put_record(plan: &mut PlanBytes, number: u16, stream: &Stream)
    requires room { length plan.old.items
        + length (numbers_bytes (stream_numbers (number, stream_of stream.now))) ≤ 3530 }
    requires small { list_all (λ h. nat_le (hop_number h) 65535) (hops_of stream.now.route) ≡ true }
    ensures { plan.new.items
        ≡ plan.old.items ++ numbers_bytes (stream_numbers (number, stream_of stream.now)) }
{
    let request = stream.request;
    let hops = stream.route.hops();
    // proved to lose nothing
    let numbers = [
        number,
        request.source,
        request.target,
        request.demand,
        hops.len() as u16,
    ];
    put_numbers(plan, &numbers);
    put_hops(plan, hops);
}
