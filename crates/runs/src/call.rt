// Calls as values, and their answers.
ghost use Rattle.std.specs.Prelude.{◌≡◌};
ghost use Rattle.routes.specs.Checks.{no_hop};
ghost use Rattle.runs.specs.Calls.{failure_refusal, failure_place};
ghost use Rattle.runs.specs.declared.call.Failure.TheVariants as failure;

use grid::step::Step;
use grid::sweep::Sweep;
use plan::fault::LoadFault;
use refusals::refusal::Refusal;
use routes::declined::Declined;
use routes::hop::Hop;
use routes::stream::Request;

/// A call on a grid, with items of one type, and with openings that come by their routes as another type tells: `Given` on every
/// kind of grid, `GivenOrBest` on grids by the rules of a layout.
#[derive(Drop)]
pub enum Call<T, R> {
    /// Open a stream of a number, with its fields, on a route.
    Open(u16, Request, R),
    /// Close a stream.
    Close(u16),
    /// Send an item of a stream.
    Send(u16, T),
    /// Step the lane of a hop.
    Step(Hop),
    /// Try a step on every lane once, and write what comes out into the tables that are lent.
    Sweep,
    /// Load a plan of these bytes.
    Load(Vec<u8>),
}

/// What a call that is done answers.
#[derive(Clone, Copy, PartialEq, Eq, Debug)]
pub enum Reply<T> {
    /// The stream is open or closed, or the item is sent.
    Done,
    /// The stream is open on a best route, of so many hops.
    Found(usize),
    /// The lane has stepped.
    Stepped(Step<T>),
    /// The lanes were swept: how many steps went, and how many items came out.
    Swept(Sweep),
    /// The plan is loaded, of so many records.
    Loaded(usize),
}

/// Why a call is not done, or not to its end.
#[derive(Clone, Copy, PartialEq, Eq, Debug)]
pub enum Failure {
    /// The call was declined, and has changed nothing.
    Declined(Declined),
    /// The plan was not loaded to its end; the streams of the records ahead of the fault are open.
    NotLoaded(LoadFault),
}

impl Failure {
    /// Why the call is not done, or not to its end.
    pub fn refusal(&self) -> Refusal
        ensures { result ≡ failure_refusal self.now }
    {
        match self {
            Failure::Declined(declined) => declined.refusal,
            Failure::NotLoaded(fault) => fault.refusal(),
        }
    }

    /// The hop of the route that is to blame, or the byte of the plan, where one is told.
    pub fn place(&self) -> Option<usize>
        ensures { result ≡ failure_place self.now }
    {
        match self {
            Failure::Declined(declined) => declined.hop,
            Failure::NotLoaded(fault) => fault.place(),
        }
    }
}

/// A call that was declined.
impl From<Declined> for Failure {
    ghost from_gives = { λ declined result. result ≡ failure.Declined declined };

    fn from(declined: Declined) -> Failure {
        Failure::Declined(declined)
    }
}

/// A call that was declined, by a refusal that tells no hop.
impl From<Refusal> for Failure {
    ghost from_gives = { λ refusal result. result ≡ failure.Declined (no_hop refusal) };

    fn from(refusal: Refusal) -> Failure {
        Failure::Declined(refusal.into())
    }
}

/// A load that met a fault.
impl From<LoadFault> for Failure {
    ghost from_gives = { λ fault result. result ≡ failure.NotLoaded fault };

    fn from(fault: LoadFault) -> Failure {
        Failure::NotLoaded(fault)
    }
}

/// The answer to a call, or why it is not done.
pub type Answer<T> = Result<Reply<T>, Failure>;
