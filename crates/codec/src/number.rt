// The numbers of a plan, and how each is read.
ghost use Rattle.std.specs.Prelude.{◌≡◌, ◌≤◌, ◌<◌, length, IfOk, drop, slice_range};
ghost use Rattle.codec.specs.Numbers.{byte_refusal, byte_place, number_at, number_bytes};

use refusals::refusal::Refusal;

/// Why no number can be read at a byte of a plan.
#[derive(Clone, Copy, PartialEq, Eq, Debug)]
pub enum ByteFault {
    /// The bytes end before the number that starts at this byte does, with fewer than three of it there.
    Cut(usize),
    /// The number that starts at this byte does not have its form: it is not written in the fewest bytes, goes on past the third, or is
    /// above 65535.
    Form(usize),
}

impl ByteFault {
    /// Why no number can be read: `NumberCut` or `NumberForm`.
    pub fn refusal(self) -> Refusal
        ensures { result ≡ byte_refusal self }
    {
        match self {
            ByteFault::Cut(_) => Refusal::NumberCut,
            ByteFault::Form(_) => Refusal::NumberForm,
        }
    }

    /// The byte at which the number would start.
    pub fn place(self) -> usize
        ensures { result ≡ byte_place self }
    {
        match self {
            ByteFault::Cut(place) | ByteFault::Form(place) => place,
        }
    }
}

/// A number of a plan, and where it stands.
#[derive(Clone, Copy, PartialEq, Eq, Debug)]
pub struct Number {
    /// The number itself.
    pub value: u16,
    /// The byte at which it starts.
    pub place: usize,
    /// The byte behind its last.
    pub next: usize,
}

// The bytes of a plan from one on.
fn bytes_from(plan: &[u8], place: usize) -> &[u8]
    ensures { result.now ≡ drop place plan.now }
{
    &plan[place.min(plan.len())..]
}

/// Reads the number that starts at a byte of a plan.
///
/// Fails by `Cut` where the bytes end before the number does, with fewer than three of it there; and by `Form` where it is not written
/// in the fewest bytes, its third byte says that another follows, or it is above 65535.
#[tactic(auto, unfolding(crate::specs::Numbers::number_bytes))]
pub fn read_number(plan: &[u8], place: usize) -> Result<Number, ByteFault>
    ensures value { result ≡ number_at plan.now place }
    ensures within { IfOk result (λ n. (place < n.next) × (n.next ≤ length plan.now)) }
    ensures stands { IfOk result (λ n. slice_range plan.now place n.next ≡ number_bytes n.value) }
{
    let [low, rest @ ..] = bytes_from(plan, place) else {
        return Err(ByteFault::Cut(place));
    };
    if *low < 128 {
        return Ok(Number {
            value: u16::from(*low),
            place,
            next: place + 1,
        });
    }
    let low = u16::from(*low - 128);
    let [middle, rest @ ..] = rest else {
        return Err(ByteFault::Cut(place));
    };
    if *middle == 0 {
        return Err(ByteFault::Form(place));
    }
    if *middle < 128 {
        return Ok(Number {
            value: low + 128 * u16::from(*middle),
            place,
            next: place + 2,
        });
    }
    let low = low + 128 * u16::from(*middle - 128);
    let [high, ..] = rest else {
        return Err(ByteFault::Cut(place));
    };
    if *high == 0 || *high > 3 {
        return Err(ByteFault::Form(place));
    }
    Ok(Number {
        value: low + 16384 * u16::from(*high),
        place,
        next: place + 3,
    })
}
