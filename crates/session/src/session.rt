// What a script has at hand, and the answers to its lines.
ghost use Rattle.std.specs.Prelude.{◌≡◌, take, Some, None, MatchOption, MatchResult};
ghost use Rattle.std.specs.Option.{ok_or, option_map};
ghost use Rattle.layouts.specs.Mesh.{meaning_of};
ghost use Rattle.routes.specs.Checks.{judgement, verdict};
ghost use Rattle.script.specs.Commands.{instruction_of};
ghost use Rattle.script.specs.declared.mistake.Mistake.TheVariants.{NoMesh, NoGrid};
ghost use Rattle.grid.specs.Blank.{NotMade};
ghost use Rattle.session.specs.declared.answer.Answer.TheVariants as answer;
ghost use Rattle.session.specs.declared.brief.Brief.TheVariants.{Accepted};
ghost use Rattle.session.specs.Heads.{IsOfMesh};
ghost use Rattle.session.specs.Hands.{GridHand, hand_of, kept_of};
ghost use Rattle.session.specs.Sessions.{unloaded, NewGrid, by_grid, OnGrid, Searches, RehearsesStreams, route, plan_of, ChecksPlan, Shows, ShowsOut, Answers, Replies, short, whole, KeepsUnlessLong, LineKeeps, kept_after, kept_after_line};

use crate::answer::{Answer, OutList};
use crate::at_hand::GridAtHand;
use crate::brief::Brief;
use crate::failure::{Failure, LineFailure};
use crate::head::head_of;
use codec::head::Head;
use grid::grid::Grid;
use grid::make::MakeError;
use layouts::mesh::Mesh;
use layouts::rules::Rules;
use layouts::ways::Ways;
use plan::check::check;
use routes::declined::Declined;
use routes::hop::Hop;
use routes::judge::{TableLimits, judge_by_table};
use routes::stream::Request;
use script::command::{BeatName, Command, MeasureName};
use script::mistake::Mistake;
use script::parse::parse;
use std::alloc::{AllocError, Global};

// Judges a route on a mesh whose links bear no load.
#[tactic(auto, unfolding(routes::specs::Loads::load))]
fn judge_unloaded(mesh: &Mesh, request: Request, hops: &[Hop]) -> Result<(), Declined>
    ensures { result ≡ verdict (judgement (unloaded (meaning_of mesh.now)) request hops.now) }
{
    // the most that a grid has
    let limits = TableLimits {
        lanes: 4,
        capacity: 65535,
        streams: &[],
    };
    judge_by_table(mesh, limits, request, hops)
}

// The verdict on a plan.
fn checked(heap: Global, plan: &[u8]) -> Result<Brief, Failure>
    ensures { ChecksPlan plan.now (short result) }
{
    match check(heap, plan) {
        Ok(Ok(summary)) => Ok(Brief::Checked(summary)),
        Ok(Err(fault)) => Err(fault.into()),
        Err(AllocError) => Err(Mistake::OutOfMemory.into()),
    }
}

// The first entries of a table: so many, or all where there are fewer.
fn front<T>(table: &[T], count: usize) -> &[T]
    ensures { result.now ≡ take count table.now }
{
    &table[..count.min(table.len())]
}

/// A grid on a mesh, with the width and the height of the mesh.
#[derive(Clone, Copy)]
pub struct GridOnMesh<'a> {
    /// The grid.
    pub grid: &'a Grid<Mesh>,
    /// How many tiles a row of its mesh has.
    pub width: u16,
    /// How many rows its mesh has.
    pub height: u16,
}

/// What a script has at hand: the mesh and the grid that it made last, if any; and the latest long answer.
#[derive(Drop)]
pub struct Session {
    mesh: Option<Mesh>,
    grid: Option<GridAtHand>,
    // kept here, so that no other answer is as long
    long: Answer,
}

impl Session {
    /// A session with nothing at hand.
    pub fn new() -> Session
        ensures hand { hand_of result ≡ record { mesh = None; grid = None } }
        ensures kept { kept_of result ≡ answer.Brief Accepted }
    {
        Session {
            mesh: None,
            grid: None,
            long: Answer::Brief(Brief::Accepted),
        }
    }

    // The mesh at hand.
    fn mesh(&self) -> Result<Mesh, Mistake>
        ensures { result ≡ ok_or self.now.mesh NoMesh }
    {
        self.mesh.ok_or(Mistake::NoMesh)
    }

    // The grid at hand.
    fn grid(&self) -> Result<&GridAtHand, Mistake>
        ensures { MatchResult result (λ grid. self.now.grid ≡ Some grid.now) (λ m. (self.now.grid ≡ None) × (m ≡ NoGrid)) }
    {
        self.grid.as_ref().ok_or(Mistake::NoGrid)
    }

    /// The grid at hand, to be shown, with the width and the height of its mesh; none where none was made.
    pub fn shown(&self) -> Option<GridOnMesh<'_>>
        ensures { MatchOption result (self.now.grid ≡ None) (λ shown. Shows shown.grid.now.layout shown.grid.now.tables shown.width shown.height (hand_of self.now)) }
    {
        let at_hand = self.grid.as_ref()?;
        Some(GridOnMesh {
            grid: &at_hand.grid,
            width: at_hand.head.width,
            height: at_hand.head.height,
        })
    }

    /// What came out by the latest sweep or drain of the grid at hand, where its answer told so many items: the first entries of both
    /// tables, so many, or all where there are fewer. None where no grid was made.
    pub fn came_out(&self, count: usize) -> Option<OutList<'_>>
        ensures { MatchOption result ((hand_of self.now).grid ≡ None)
            (λ out. ShowsOut count out.streams.now out.items.now (hand_of self.now)) }
    {
        let at_hand = self.grid.as_ref()?;
        Some(OutList {
            streams: front(&at_hand.streams, count),
            items: front(&at_hand.items, count),
        })
    }

    /// The latest long answer: a route, a plan, or what a rehearsal came to; `Accepted` ahead of the first.
    pub fn kept(&self) -> &Answer
        ensures { result.now ≡ kept_of self.now }
    {
        &self.long
    }

    // The functions of what is long are their own, so that `answer_briefly` has room for short answers alone.

    // Makes a blank grid of the sizes in its head on a mesh. Both are at hand then.
    fn make(&mut self, heap: Global, mesh: Mesh, head: Head) -> Result<(), MakeError>
        requires { IsOfMesh head }
        ensures value { MatchResult result
            (λ _. (g : GridHand) × NewGrid (meaning_of mesh) head g
            × (hand_of self.new ≡ record { mesh = Some (meaning_of mesh); grid = Some g }))
            (λ e. NotMade head.lanes head.depth head.capacity e
            × (hand_of self.new ≡ hand_of self.old)) }
        ensures kept { kept_of self.new ≡ kept_of self.old }
    {
        let grid = GridAtHand::blank(heap, mesh, head)?;
        self.mesh = Some(mesh);
        self.grid = Some(grid);
        Ok(())
    }

    // Opens a stream on a best route, and keeps the answer.
    fn seek(
        &mut self,
        stream: u16,
        request: Request,
        measure: MeasureName,
    ) -> Result<Option<Brief>, Failure>
        ensures value { OnGrid (Searches stream request measure) (hand_of self.old).mesh
            (hand_of self.old).grid (whole (kept_of self.new) result) (hand_of self.new) }
        ensures kept { KeepsUnlessLong result (kept_of self.old) (kept_of self.new) }
    {
        match &mut self.grid {
            Some(grid) => {
                self.long = grid.seek(stream, request, measure)?;
                Ok(None)
            }
            None => Err(Mistake::NoGrid.into()),
        }
    }

    // Rehearses the open streams, and keeps the answer.
    fn rehearse(&mut self, strips: u16, beat: BeatName) -> Result<Option<Brief>, Failure>
        ensures value { OnGrid (RehearsesStreams strips) (hand_of self.old).mesh
            (hand_of self.old).grid (whole (kept_of self.new) result) (hand_of self.new) }
        ensures kept { KeepsUnlessLong result (kept_of self.old) (kept_of self.new) }
    {
        match &mut self.grid {
            Some(grid) => {
                self.long = grid.rehearse(strips, beat)?;
                Ok(None)
            }
            None => Err(Mistake::NoGrid.into()),
        }
    }

    // The route of a stream, as the answer that is kept.
    fn route(&mut self, stream: u16) -> Result<Option<Brief>, Failure>
        ensures value { whole (kept_of self.new) result
            ≡ by_grid (route stream) (hand_of self.old).grid }
        ensures kept { KeepsUnlessLong result (kept_of self.old) (kept_of self.new) }
        ensures hand { hand_of self.new ≡ hand_of self.old }
    {
        self.long = self.grid()?.route(stream)?;
        Ok(None)
    }

    // The plan of the open streams, as the answer that is kept.
    fn write(&mut self) -> Result<Option<Brief>, Failure>
        ensures value { whole (kept_of self.new) result ≡ by_grid plan_of (hand_of self.old).grid }
        ensures kept { KeepsUnlessLong result (kept_of self.old) (kept_of self.new) }
        ensures hand { hand_of self.new ≡ hand_of self.old }
    {
        self.long = self.grid()?.plan();
        Ok(None)
    }

    /// The answer to a command, as `answer` gives it, told briefly: where it is long, none is told, and `kept` has it from then on. All
    /// else leaves what is kept as it was.
    pub fn answer_briefly(
        &mut self,
        heap: Global,
        command: Command,
    ) -> Result<Option<Brief>, Failure>
        ensures value { Answers (hand_of self.old) (instruction_of command)
            (whole (kept_of self.new) result) (hand_of self.new) }
        ensures kept { KeepsUnlessLong result (kept_of self.old) (kept_of self.new) }
    {
        // A match and not a closure for each command: the command is read from input, and each brings other values.
        match command {
            Command::Mesh(rule, width, height) => {
                let mesh = Mesh::new(rule, width, height)?;
                self.mesh = Some(mesh);
                Ok(Some(Brief::Made(mesh.tiles(), mesh.links())))
            }
            Command::Link(link) => {
                let mesh = self.mesh()?;
                Ok(Some(Brief::Ends(mesh.start(link), mesh.end(link))))
            }
            Command::Turn(from, to) => Ok(Some(Brief::Turn(self.mesh()?.turn(from, to)))),
            Command::Judge(request, hops) => {
                judge_unloaded(&self.mesh()?, request, hops.as_slice())?;
                Ok(Some(Brief::Accepted))
            }
            Command::Grid {
                rule,
                width,
                height,
                lanes,
                depth,
                capacity,
            } => {
                let mesh = Mesh::new(rule, width, height)?;
                self.make(
                    heap,
                    mesh,
                    head_of(rule, width, height, lanes, depth, capacity),
                )?;
                Ok(Some(Brief::Accepted))
            }
            Command::Open(stream, request, hops) => match &mut self.grid {
                Some(grid) => grid.open(stream, request, hops.as_slice()).map(Some),
                None => Err(Mistake::NoGrid.into()),
            },
            Command::Seek(stream, request, measure) => self.seek(stream, request, measure),
            Command::Close(stream) => match &mut self.grid {
                Some(grid) => grid.close(stream).map(Some),
                None => Err(Mistake::NoGrid.into()),
            },
            Command::Send(stream, strip) => match &mut self.grid {
                Some(grid) => grid.send(stream, strip).map(Some),
                None => Err(Mistake::NoGrid.into()),
            },
            Command::Step(hop) => match &mut self.grid {
                Some(grid) => grid.step(hop).map(Some),
                None => Err(Mistake::NoGrid.into()),
            },
            Command::Stream(stream) => self.grid()?.fields(stream).map(Some),
            Command::Route(stream) => self.route(stream),
            Command::LinkLoad(link) => self.grid()?.link_load(link).map(Some),
            Command::Count(hop) => self.grid()?.count(hop).map(Some),
            Command::Items => Ok(Some(self.grid()?.items())),
            Command::Ahead => Ok(Some(self.grid()?.ahead())),
            Command::Sweep => match &mut self.grid {
                Some(grid) => Ok(Some(grid.sweep())),
                None => Err(Mistake::NoGrid.into()),
            },
            Command::Drain => match &mut self.grid {
                Some(grid) => Ok(Some(grid.drain())),
                None => Err(Mistake::NoGrid.into()),
            },
            Command::Load(plan) => match &mut self.grid {
                Some(grid) => grid.load(plan.as_slice()).map(Some),
                None => Err(Mistake::NoGrid.into()),
            },
            Command::Write => self.write(),
            Command::Check(plan) => checked(heap, plan.as_slice()).map(Some),
            Command::Rehearse(strips, beat) => self.rehearse(strips, beat),
            Command::Report => Ok(Some(Brief::Report)),
            Command::Streams => {
                self.grid()?;
                Ok(Some(Brief::Streams))
            }
            Command::Picture => {
                self.grid()?;
                Ok(Some(Brief::Picture))
            }
            Command::Say => Ok(Some(Brief::Say)),
        }
    }

    /// The answer to a command. A mesh or a grid that is made takes the place of the one at hand; with a grid its mesh is
    /// at hand too. A refusal or a mistake leaves all at hand as it was; where a plan is not loaded, the records ahead of the fault
    /// stay open.
    ///
    /// Which of equally good routes a seek takes is left open, and so is which stream sends when in a rehearsal.
    ///
    /// Refuses what `Mesh::new`, `judge` and the calls of a grid refuse, and tells the fault where a plan is not loaded. Where a mesh or a grid is wanted and none is at
    /// hand, the mistake is `NoMesh` or `NoGrid`; where there is no memory for a grid, also one that a plan is checked on, it is `OutOfMemory`.
    #[tactic(auto, using(crate::proofs::OnGrids::latest_long))]
    pub fn answer(&mut self, heap: Global, command: Command) -> Result<Answer, Failure>
        ensures value { Answers (hand_of self.old) (instruction_of command) result
            (hand_of self.new) }
        ensures kept { kept_of self.new ≡ kept_after (kept_of self.old) result }
    {
        match self.answer_briefly(heap, command)? {
            Some(brief) => Ok(Answer::Brief(brief)),
            None => Ok(*self.kept()),
        }
    }

    /// The reply to a line of a script, as `reply` gives it, told briefly: where it is a long answer, none is told in its place, and `kept`
    /// has it from then on. All else leaves what is kept as it was.
    pub fn reply_briefly(
        &mut self,
        heap: Global,
        number: u64,
        line: &[u8],
    ) -> Option<Result<Option<Brief>, LineFailure>>
        ensures value { Replies (hand_of self.old) number line.now
            (option_map (whole (kept_of self.new)) result) (hand_of self.new) }
        ensures kept { LineKeeps result (kept_of self.old) (kept_of self.new) }
    {
        let response = match parse(heap, line) {
            Ok(None) => return None,
            Ok(Some(command)) => self.answer_briefly(heap, command),
            Err(mistake) => Err(mistake.into()),
        };
        Some(response.map_err(|failure| LineFailure {
            line: number,
            failure,
        }))
    }

    /// The reply to a line of a script, none where the line has no word. Lines are counted from 1. Where there is no
    /// memory for what the line says, that is the reply, and all at hand is as it was. Which of equally good routes a seek takes is left
    /// open.
    #[tactic(auto, using(crate::proofs::OnGrids::latest_long))]
    pub fn reply(
        &mut self,
        heap: Global,
        number: u64,
        line: &[u8],
    ) -> Option<Result<Answer, LineFailure>>
        ensures value { Replies (hand_of self.old) number line.now result (hand_of self.new) }
        ensures kept { kept_of self.new ≡ kept_after_line (kept_of self.old) result }
    {
        Some(match self.reply_briefly(heap, number, line)? {
            Ok(Some(brief)) => Ok(Answer::Brief(brief)),
            Ok(None) => Ok(*self.kept()),
            Err(failure) => Err(failure),
        })
    }
}
