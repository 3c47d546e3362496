// What a rehearsal counts of each stream.
ghost use Rattle.std.specs.Prelude.{◌≡◌, ◌+◌, ◌&&◌};
ghost use Rattle.rehearsal.specs.Strips.{strip_of, is_strip, counted};

use lanes::strip::Strip;

/// What a rehearsal has seen of a stream.
#[derive(Clone, Copy, PartialEq, Eq, Debug)]
pub struct Tally {
    /// How many strips were let in.
    pub sent: u16,
    /// How many strips came out.
    pub out: u64,
    /// Whether those that came out are, in order, the first of those that were let in.
    pub in_order: bool,
}

// The strip of a row that a stream sends in a rehearsal: it shows no fragment, 0, and its band is the number of the stream.
pub(crate) fn strip_of(stream: u8, row: u16) -> Strip
    ensures { result ≡ strip_of stream row }
{
    Strip {
        fragment: 0,
        band: stream,
        row,
    }
}

impl Tally {
    // Of a stream that has sent nothing.
    pub(crate) const NONE: Tally = Tally {
        sent: 0,
        out: 0,
        in_order: true,
    };

    // The tally of a stream once this strip came out too.
    pub(crate) fn after(self, stream: u16, strip: Strip) -> Tally
        ensures sent { result.sent ≡ self.sent }
        ensures out { result.out ≡ counted (self.out + 1) }
        ensures in_order { result.in_order ≡ (self.in_order && is_strip stream self.out strip) }
    {
        let Strip {
            fragment,
            band,
            row,
        } = strip;
        let is_next = fragment == 0 && u16::from(band) == stream && u64::from(row) == self.out;
        Tally {
            sent: self.sent,
            out: self.out.saturating_add(1),
            in_order: self.in_order && is_next,
        }
    }
}
