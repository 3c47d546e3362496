// The line that tells a verdict.
ghost use Rattle.std.specs.Prelude.{◌≡◌, ◌≤◌, ◌+◌, ◌++◌, length, Some, IsOk, IfOk};
ghost use Rattle.plan.specs.Buffers.{fitted, Puts};
ghost use Rattle.plan.specs.Lines.{layer_of, record_of, refusal_in, place_in, field_text, fault_text, summary_text, verdict_text, line_text};

use crate::buffer::put;
use crate::fault::LoadFault;
use arrayvec::ArrayString;
use itoa::Buffer;
use refusals::refusal::Refusal;
use std::fmt;

/// What a grid bears.
#[derive(Clone, Copy, PartialEq, Eq, Debug)]
pub struct Summary {
    /// How many streams are open.
    pub streams: u16,
    /// How many hops their routes have together.
    pub hops: usize,
    /// The largest load of a link.
    pub load: u32,
}

/// What a plan comes to on a blank grid: what the grid bears once it is loaded, or the fault.
pub type Verdict = Result<Summary, LoadFault>;

/// The most bytes that a line has: `fault`, four numbers of at most 20 digits with a blank ahead of each, and a line feed.
pub const LONGEST_LINE: usize = 90;

// The text of a line.
type Text = ArrayString<LONGEST_LINE>;

// Writes a blank and a number, or a dash where there is none.
fn push_field(text: &mut Text, field: Option<usize>)
    requires { length text.old.bytes + 21 ≤ 90 }
    ensures bytes { text.new.bytes ≡ text.old.bytes ++ field_text field }
    ensures short { length text.new.bytes ≤ length text.old.bytes + 21 }
{
    match field {
        None => text.push_str(" -"),
        Some(number) => {
            text.push_str(" ");
            text.push_str(Buffer::new().format(number));
        }
    }
}

impl LoadFault {
    /// The layer that the fault is of: 1 the bytes, 2 the plan as a whole, 3 the grid.
    pub fn layer(&self) -> u8
        ensures { result ≡ layer_of self.now }
    {
        match self {
            LoadFault::HeadBytes(_) | LoadFault::RecordBytes(_) => 1,
            LoadFault::Plan(_) => 2,
            LoadFault::Grid(_) => 3,
        }
    }

    /// The record, counted from 0, where the fault is in one.
    pub fn record(&self) -> Option<usize>
        ensures { result ≡ record_of self.now }
    {
        match self {
            LoadFault::HeadBytes(_) | LoadFault::Plan(_) => None,
            LoadFault::RecordBytes(fault) => Some(fault.number),
            LoadFault::Grid(fault) => Some(fault.number),
        }
    }

    /// Why the plan is not loaded.
    pub fn refusal(&self) -> Refusal
        ensures { result ≡ refusal_in self.now }
    {
        match self {
            LoadFault::HeadBytes(fault) => fault.refusal(),
            LoadFault::RecordBytes(fault) => fault.fault.refusal(),
            LoadFault::Plan(fault) => fault.refusal,
            LoadFault::Grid(fault) => fault.fault.refusal,
        }
    }

    /// The byte of the plan; or the hop of the route, counted from 0, where the grid tells one.
    pub fn place(&self) -> Option<usize>
        ensures { result ≡ place_in self.now }
    {
        match self {
            LoadFault::HeadBytes(fault) => Some(fault.place()),
            LoadFault::RecordBytes(fault) => Some(fault.fault.place()),
            LoadFault::Plan(fault) => Some(fault.place),
            LoadFault::Grid(fault) => fault.fault.hop,
        }
    }

    // The text of the fault.
    fn text(&self) -> Text
        ensures bytes { result.bytes ≡ fault_text self.now }
        ensures short { length result.bytes ≤ 89 }
    {
        let mut text = Text::new();
        text.push_str("fault");
        push_field(&mut text, Some(usize::from(self.layer())));
        push_field(&mut text, self.record());
        push_field(&mut text, Some(usize::from(self.refusal().number())));
        push_field(&mut text, self.place());
        text
    }
}

impl Summary {
    // The text of the summary.
    fn text(&self) -> Text
        ensures bytes { result.bytes ≡ summary_text self.now }
        ensures short { length result.bytes ≤ 89 }
    {
        let mut text = Text::new();
        text.push_str("ok");
        push_field(&mut text, Some(usize::from(self.streams)));
        push_field(&mut text, Some(self.hops));
        push_field(&mut text, Some(self.load as usize));
        text
    }
}

/// Writes `fault`, the layer, the record, the number of the refusal and the place, with a dash where there is none.
impl fmt::Display for LoadFault {
    ghost output = { λ f. Some (fault_text f) };

    fn fmt<W: fmt::Write>(&self, f: &mut fmt::Formatter<W>) -> fmt::Result {
        f.write_str(self.text().as_str())
    }
}

/// Writes `ok`, the count of streams, the count of hops and the largest load.
impl fmt::Display for Summary {
    ghost output = { λ s. Some (summary_text s) };

    fn fmt<W: fmt::Write>(&self, f: &mut fmt::Formatter<W>) -> fmt::Result {
        f.write_str(self.text().as_str())
    }
}

/// Writes the line that tells a verdict at the front of a buffer, and answers the count of its bytes; what stands in the buffer behind the line is
/// not touched.
///
/// Refuses a buffer that is too short by `BufferTooShort`, and then writes nothing. A buffer of `LONGEST_LINE` bytes is never too short.
pub fn compose(verdict: &Verdict, buffer: &mut [u8]) -> Result<usize, Refusal>
    ensures made { Puts (fitted (length buffer.old) (line_text verdict.now))
        buffer.old result buffer.new }
    ensures short { IfOk result (λ count. count ≤ 90) }
    ensures room { 90 ≤ length buffer.old → IsOk result }
{
    let mut line = match verdict {
        Ok(summary) => summary.text(),
        Err(fault) => fault.text(),
    };
    line.push_str("\n");
    put(buffer, line.as_str().as_bytes())
}
