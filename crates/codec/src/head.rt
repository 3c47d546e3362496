// The head of a plan.
ghost use Rattle.std.specs.Prelude.{◌≡◌, not, find, slice_range, IfOk};
ghost use Rattle.codec.specs.Sequences.{numbers_bytes};
ghost use Rattle.codec.specs.Heads.{rule_numbered, head_numbers, parts, allowed, refusal_of, number_of, fits, place_of, values_of, head_at, judged};

use crate::number::{ByteFault, Number, read_number};
use layouts::turn_rule::TurnRule;
use refusals::refusal::Refusal;

/// The numbers of a plan's head, but the count of its streams. They may be any numbers until `judge_head` has judged them.
#[derive(Clone, Copy, PartialEq, Eq, Debug)]
pub struct Head {
    /// The version of the format.
    pub version: u16,
    /// The number of the turn rule.
    pub rule: u16,
    /// How many tiles wide the mesh is.
    pub width: u16,
    /// How many tiles high it is.
    pub height: u16,
    /// How many lanes a link has.
    pub lanes: u16,
    /// How many items a lane holds.
    pub depth: u16,
    /// How much demand a link can bear.
    pub capacity: u16,
}

/// The sizes of a grid that a head has to fit.
#[derive(Clone, Copy, PartialEq, Eq, Debug)]
pub struct GridSizes {
    /// How many lanes a link has.
    pub lanes: u16,
    /// How many items a lane holds.
    pub depth: u16,
    /// How much demand a link can bear.
    pub capacity: u16,
}

/// One of the numbers of a head, in the order in which they stand.
#[derive(Clone, Copy, PartialEq, Eq, Debug)]
pub enum HeadPart {
    /// The version of the format.
    Version,
    /// The number of the turn rule.
    Rule,
    /// How many tiles wide the mesh is.
    Width,
    /// How many tiles high it is.
    Height,
    /// How many lanes a link has.
    Lanes,
    /// How many items a lane holds.
    Depth,
    /// How much demand a link can bear.
    Capacity,
    /// How many streams the plan has.
    Count,
}

/// Why a head is refused, and at which of its numbers.
#[derive(Clone, Copy, PartialEq, Eq, Debug)]
pub struct HeadFault {
    /// Why it is refused.
    pub refusal: Refusal,
    /// The number that is to blame.
    pub part: HeadPart,
}

/// The numbers of a head as they stand in a plan.
#[derive(Clone, Copy, PartialEq, Eq, Debug)]
pub struct HeadNumbers {
    /// The version of the format.
    pub version: Number,
    /// The number of the turn rule.
    pub rule: Number,
    /// How many tiles wide the mesh is.
    pub width: Number,
    /// How many tiles high it is.
    pub height: Number,
    /// How many lanes a link has.
    pub lanes: Number,
    /// How many items a lane holds.
    pub depth: Number,
    /// How much demand a link can bear.
    pub capacity: Number,
    /// How many streams the plan has.
    pub count: Number,
}

/// The turn rule that a number in a head stands for: 1 `Xy`, 2 `WestFirst`, 3 `NorthLast`, 4 `NegativeFirst`; none for any
/// other number.
pub fn rule_numbered(number: u16) -> Option<TurnRule>
    ensures { result ≡ rule_numbered number }
{
    match number {
        1 => Some(TurnRule::Xy),
        2 => Some(TurnRule::WestFirst),
        3 => Some(TurnRule::NorthLast),
        4 => Some(TurnRule::NegativeFirst),
        _ => None,
    }
}

impl HeadPart {
    // All parts, in their order.
    #[tactic(auto, unfolding(crate::specs::Heads::parts))]
    fn all() -> [HeadPart; 8]
        ensures { result ≡ parts }
    {
        [
            HeadPart::Version,
            HeadPart::Rule,
            HeadPart::Width,
            HeadPart::Height,
            HeadPart::Lanes,
            HeadPart::Depth,
            HeadPart::Capacity,
            HeadPart::Count,
        ]
    }

    // Whether the format allows a number in this part.
    fn allows(self, number: u16) -> bool
        ensures { result ≡ allowed self number }
    {
        match self {
            HeadPart::Version => number == 1,
            HeadPart::Rule => rule_numbered(number).is_some(),
            HeadPart::Width | HeadPart::Height => (2..=8).contains(&number),
            HeadPart::Lanes => (1..=4).contains(&number),
            HeadPart::Depth => (1..=8).contains(&number),
            HeadPart::Capacity => number > 0,
            HeadPart::Count => number <= 64,
        }
    }

    // Why a number in this part is refused that the format does not allow.
    fn refusal(self) -> Refusal
        ensures { result ≡ refusal_of self }
    {
        match self {
            HeadPart::Version | HeadPart::Rule | HeadPart::Count => Refusal::BadHead,
            HeadPart::Width | HeadPart::Height => Refusal::MeshSize,
            HeadPart::Lanes | HeadPart::Depth => Refusal::GridSize,
            HeadPart::Capacity => Refusal::ZeroAmount,
        }
    }
}

impl Head {
    // The number in a part of the head of a plan of so many streams.
    fn number(&self, count: u16, part: HeadPart) -> u16
        ensures { result ≡ number_of self.now count part }
    {
        match part {
            HeadPart::Version => self.version,
            HeadPart::Rule => self.rule,
            HeadPart::Width => self.width,
            HeadPart::Height => self.height,
            HeadPart::Lanes => self.lanes,
            HeadPart::Depth => self.depth,
            HeadPart::Capacity => self.capacity,
            HeadPart::Count => count,
        }
    }

    // Whether a part is that of a grid, or of no concern to it.
    fn fits(&self, grid: GridSizes, part: HeadPart) -> bool
        ensures { result ≡ fits self.now grid part }
    {
        match part {
            HeadPart::Lanes => self.lanes == grid.lanes,
            HeadPart::Depth => self.depth == grid.depth,
            HeadPart::Capacity => self.capacity == grid.capacity,
            _ => true,
        }
    }

    // The first part that is not allowed in the head of a plan of so many streams.
    fn first_refused(&self, count: u16) -> Option<HeadPart>
        ensures { result ≡ find (λ part. not (allowed part (number_of self.now count part))) parts }
    {
        let parts = HeadPart::all();
        parts
            .iter()
            .copied()
            .find(|part| !part.allows(self.number(count, *part)))
    }

    // The first part that does not fit a grid.
    fn first_misfit(&self, grid: GridSizes) -> Option<HeadPart>
        ensures { result ≡ find (λ part. not (fits self.now grid part)) parts }
    {
        let parts = HeadPart::all();
        parts.iter().copied().find(|part| !self.fits(grid, *part))
    }
}

/// Judges the head of a plan of so many streams, its numbers in the order in which they stand, and last whether it fits the grid. A
/// fault tells which number is to blame.
///
/// Refuses, in this order, a version other than 1 and a rule outside 1 to 4 by `BadHead`, a width and a height outside 2 to 8 by
/// `MeshSize`, lanes outside 1 to 4 and a depth outside 1 to 8 by `GridSize`, a capacity of 0 by `ZeroAmount`, more than 64 streams by
/// `BadHead`, and then, by `BadHead` too, lanes, a depth or a capacity other than those of the grid.
pub fn judge_head(head: &Head, count: u16, grid: GridSizes) -> Result<(), HeadFault>
    ensures { result ≡ judged head.now count grid }
{
    if let Some(part) = head.first_refused(count) {
        return Err(HeadFault {
            refusal: part.refusal(),
            part,
        });
    }
    if let Some(part) = head.first_misfit(grid) {
        return Err(HeadFault {
            refusal: Refusal::BadHead,
            part,
        });
    }
    Ok(())
}

impl HeadNumbers {
    /// The numbers themselves.
    pub fn head(&self) -> Head
        ensures { result ≡ values_of self.now }
    {
        Head {
            version: self.version.value,
            rule: self.rule.value,
            width: self.width.value,
            height: self.height.value,
            lanes: self.lanes.value,
            depth: self.depth.value,
            capacity: self.capacity.value,
        }
    }

    /// The byte at which a part starts.
    pub fn place(&self, part: HeadPart) -> usize
        ensures { result ≡ place_of self.now part }
    {
        match part {
            HeadPart::Version => self.version.place,
            HeadPart::Rule => self.rule.place,
            HeadPart::Width => self.width.place,
            HeadPart::Height => self.height.place,
            HeadPart::Lanes => self.lanes.place,
            HeadPart::Depth => self.depth.place,
            HeadPart::Capacity => self.capacity.place,
            HeadPart::Count => self.count.place,
        }
    }
}

/// Reads the numbers of a plan's head; none is judged. Fails with the fault of the first that cannot be read.
pub fn read_head(plan: &[u8]) -> Result<HeadNumbers, ByteFault>
    ensures value { result ≡ head_at plan.now }
    ensures stands { IfOk result (λ h. slice_range plan.now 0 h.count.next ≡ numbers_bytes (head_numbers (values_of h) h.count.value)) }
{
    let version = read_number(plan, 0)?;
    let rule = read_number(plan, version.next)?;
    let width = read_number(plan, rule.next)?;
    let height = read_number(plan, width.next)?;
    let lanes = read_number(plan, height.next)?;
    let depth = read_number(plan, lanes.next)?;
    let capacity = read_number(plan, depth.next)?;
    let count = read_number(plan, capacity.next)?;
    Ok(HeadNumbers {
        version,
        rule,
        width,
        height,
        lanes,
        depth,
        capacity,
        count,
    })
}
