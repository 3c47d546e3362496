// Why a line of a script has no answer, and how that is written.
ghost use Rattle.std.specs.Prelude.{◌≡◌, Some};
ghost use Rattle.routes.specs.Checks.{no_hop};
ghost use Rattle.session.specs.declared.failure.Failure.TheVariants as failure;
ghost use Rattle.session.specs.Failures.{making_failure};
ghost use Rattle.session.specs.Texts.{failure_text};

use grid::make::MakeError;
use plan::fault::LoadFault;
use refusals::refusal::Refusal;
use routes::declined::Declined;
use script::mistake::Mistake;
use std::fmt;

/// Why a command has no answer.
#[derive(Clone, Copy, PartialEq, Eq, Debug)]
pub enum Failure {
    /// The call was declined: why, and at which hop where one is told.
    Declined(Declined),
    /// What is wrong with the line.
    Mistake(Mistake),
    /// Why a plan was not loaded.
    NotLoaded(LoadFault),
}

// The conversions are written out, since the `From` that `thiserror` writes has no contract.
/// A call that was declined.
impl From<Declined> for Failure {
    ghost from_gives = { λ declined result. result ≡ failure.Declined declined };

    fn from(declined: Declined) -> Failure {
        Failure::Declined(declined)
    }
}

/// A call that was declined with no hop to tell.
impl From<Refusal> for Failure {
    ghost from_gives = { λ refusal result. result ≡ failure.Declined (no_hop refusal) };

    fn from(refusal: Refusal) -> Failure {
        Failure::Declined(refusal.into())
    }
}

/// A line that is mistaken.
impl From<Mistake> for Failure {
    ghost from_gives = { λ mistake result. result ≡ failure.Mistake mistake };

    fn from(mistake: Mistake) -> Failure {
        Failure::Mistake(mistake)
    }
}

/// A plan that was not loaded.
impl From<LoadFault> for Failure {
    ghost from_gives = { λ fault result. result ≡ failure.NotLoaded fault };

    fn from(fault: LoadFault) -> Failure {
        Failure::NotLoaded(fault)
    }
}

/// A grid that is refused is declined; that there is no memory for one is a mistake.
impl From<MakeError> for Failure {
    ghost from_gives = { λ error result. result ≡ making_failure error };

    fn from(error: MakeError) -> Failure {
        match error {
            MakeError::Refused(refusal) => refusal.into(),
            MakeError::OutOfMemory => Mistake::OutOfMemory.into(),
        }
    }
}

/// A failure with the number of its line, counted from 1.
#[derive(Clone, Copy, PartialEq, Eq, Debug)]
pub struct LineFailure {
    /// The number of the line.
    pub line: u64,
    /// Why it has no answer.
    pub failure: Failure,
}

/// `refused NUMBER`, with the hop where one is told; `error LINE: what is wrong`; or a plan's fault.
impl fmt::Display for LineFailure {
    ghost output = { λ it. Some (failure_text it) };

    fn fmt<W: fmt::Write>(&self, f: &mut fmt::Formatter<W>) -> fmt::Result {
        let line = self.line;
        match self.failure {
            Failure::Declined(Declined { refusal, hop }) => {
                let number = refusal.number();
                match hop {
                    Some(hop) => write!(f, "refused {number} hop {hop}"),
                    None => write!(f, "refused {number}"),
                }
            }
            Failure::Mistake(mistake) => write!(f, "error {line}: {mistake}"),
            Failure::NotLoaded(fault) => write!(f, "{fault}"),
        }
    }
}
