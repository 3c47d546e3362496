// Why a plan is not loaded.
ghost use Rattle.std.specs.Prelude.{◌≡◌};
ghost use Rattle.plan.specs.declared.fault.LoadFault.TheVariants.{HeadBytes, RecordBytes, Plan, Grid};

use codec::number::ByteFault;
use refusals::refusal::Refusal;
use routes::declined::Declined;

/// A fault met in a record of a plan; records are counted from 0.
#[derive(Clone, Copy, PartialEq, Eq, Debug)]
pub struct InRecord<F> {
    /// The number of the record.
    pub number: usize,
    /// The fault itself.
    pub fault: F,
}

/// Why a plan is refused as a whole, and where.
#[derive(Clone, Copy, PartialEq, Eq, Debug)]
pub struct PlanFault {
    /// Why it is refused.
    pub refusal: Refusal,
    /// The byte at which the number of its head starts that is to blame, or the first byte behind its last record.
    pub place: usize,
}

/// Why a plan is not loaded. The fault of the layer below is carried whole.
#[derive(Clone, Copy, PartialEq, Eq, Debug)]
pub enum LoadFault {
    /// A number of the head cannot be read.
    HeadBytes(ByteFault),
    /// A number of a record cannot be read.
    RecordBytes(InRecord<ByteFault>),
    /// The head is refused, or bytes stand behind the last record.
    Plan(PlanFault),
    /// The grid declines the stream of a record.
    Grid(InRecord<Declined>),
}

/// A number of the head that cannot be read.
impl From<ByteFault> for LoadFault {
    ghost from_gives = { λ fault f. f ≡ HeadBytes fault };

    fn from(fault: ByteFault) -> LoadFault {
        LoadFault::HeadBytes(fault)
    }
}

/// A number of a record that cannot be read.
impl From<InRecord<ByteFault>> for LoadFault {
    ghost from_gives = { λ fault f. f ≡ RecordBytes fault };

    fn from(fault: InRecord<ByteFault>) -> LoadFault {
        LoadFault::RecordBytes(fault)
    }
}

/// A fault of the plan as a whole.
impl From<PlanFault> for LoadFault {
    ghost from_gives = { λ fault f. f ≡ Plan fault };

    fn from(fault: PlanFault) -> LoadFault {
        LoadFault::Plan(fault)
    }
}

/// A record's stream that the grid declines.
impl From<InRecord<Declined>> for LoadFault {
    ghost from_gives = { λ fault f. f ≡ Grid fault };

    fn from(fault: InRecord<Declined>) -> LoadFault {
        LoadFault::Grid(fault)
    }
}
