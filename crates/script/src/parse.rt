// From the words of a line to its command.
ghost use Rattle.std.specs.Prelude.{◌≡◌, ◌∷◌};
ghost use Rattle.std.specs.Option.{option_map};
ghost use Rattle.script.specs.Words.{words_of};
ghost use Rattle.script.specs.Reads.{said, Parses, OfTheLine};
ghost use Rattle.script.specs.Commands.{instruction_of, mesh_instruction, turn_instruction, grid_instruction, judge_instruction, open_instruction, seek_instruction, send_instruction, rehearse_instruction, loads, checks, bytes_instruction, question_named, show_named, call_named, named_instruction, command_of, NeedsMemory};

use crate::command::Command;
use crate::mistake::Mistake;
use crate::words::Words;
use std::alloc::Global;

impl<'a> Words<'a> {
    // The words behind `mesh`: a rule, a width and a height.
    fn mesh(&mut self) -> Result<Command, Mistake>
        ensures { said instruction_of result ≡ mesh_instruction self.old }
    {
        let (rule, width, height) = self.shape()?;
        self.end()?;
        Ok(Command::Mesh(rule, width, height))
    }

    // The words behind `turn`: two links.
    fn turn(&mut self) -> Result<Command, Mistake>
        ensures { said instruction_of result ≡ turn_instruction self.old }
    {
        let from = self.number()?;
        let to = self.number()?;
        self.end()?;
        Ok(Command::Turn(from, to))
    }

    // The words behind `judge`: what a stream asks for, and hops.
    fn judge(&mut self, heap: Global) -> Result<Command, Mistake>
        ensures { Parses instruction_of (Unit {0}) (judge_instruction self.old) result }
    {
        let (request, hops) = self.request_and_hops(heap)?;
        Ok(Command::Judge(request, hops))
    }

    // The words behind `grid`: those of a mesh, the lanes of a link, a depth and a capacity.
    fn grid(&mut self) -> Result<Command, Mistake>
        ensures { said instruction_of result ≡ grid_instruction self.old }
    {
        let (rule, width, height) = self.shape()?;
        let lanes = self.number()?;
        let depth = self.number()?;
        let capacity = self.number()?;
        self.end()?;
        Ok(Command::Grid {
            rule,
            width,
            height,
            lanes,
            depth,
            capacity,
        })
    }

    // The words behind `open`: a stream, what it asks for, and hops.
    fn open(&mut self, heap: Global) -> Result<Command, Mistake>
        ensures { Parses instruction_of (Unit {0}) (open_instruction self.old) result }
    {
        let stream = self.number()?;
        let (request, hops) = self.request_and_hops(heap)?;
        Ok(Command::Open(stream, request, hops))
    }

    // The words behind `seek`: a stream, what it asks for, and a measure.
    fn seek(&mut self) -> Result<Command, Mistake>
        ensures { said instruction_of result ≡ seek_instruction self.old }
    {
        let stream = self.number()?;
        let request = self.request()?;
        let measure = self.measure()?;
        self.end()?;
        Ok(Command::Seek(stream, request, measure))
    }

    // The words behind `send`: a stream and a strip.
    fn send(&mut self) -> Result<Command, Mistake>
        ensures { said instruction_of result ≡ send_instruction self.old }
    {
        let stream = self.number()?;
        Ok(Command::Send(stream, self.only_strip()?))
    }

    // The words behind `load`: the bytes of a plan.
    fn load(&mut self, heap: Global) -> Result<Command, Mistake>
        ensures { Parses instruction_of (Unit {0}) (bytes_instruction loads self.old) result }
    {
        Ok(Command::Load(self.bytes(heap)?))
    }

    // The words behind `rehearse`: a count of strips, and a beat or none.
    fn rehearse(&mut self) -> Result<Command, Mistake>
        ensures { said instruction_of result ≡ rehearse_instruction self.old }
    {
        let strips = self.number()?;
        Ok(Command::Rehearse(strips, self.last_beat()?))
    }

    // The words behind `check`: the bytes of a plan.
    fn check(&mut self, heap: Global) -> Result<Command, Mistake>
        ensures { Parses instruction_of (Unit {0}) (bytes_instruction checks self.old) result }
    {
        Ok(Command::Check(self.bytes(heap)?))
    }
}

// The names are matched in four groups, since the proof of one match over all of them does not close. Matches and not
// closures: the names are read from input.

// A command that asks about a grid.
fn question(name: &[u8], words: &mut Words<'_>) -> Result<Command, Mistake>
    ensures { said instruction_of result ≡ question_named name.now words.old }
{
    match name {
        b"stream" => words.only_number().map(Command::Stream),
        b"route" => words.only_number().map(Command::Route),
        b"linkload" => words.only_number().map(Command::LinkLoad),
        b"count" => words.only_hop().map(Command::Count),
        b"items" => words.end().map(|()| Command::Items),
        b"ahead" => words.end().map(|()| Command::Ahead),
        b"write" => words.end().map(|()| Command::Write),
        _ => Err(Mistake::UnknownCommand),
    }
}

// A command that rehearses a plan or shows it, or asks about a grid.
fn show(heap: Global, name: &[u8], words: &mut Words<'_>) -> Result<Command, Mistake>
    ensures { Parses instruction_of (NeedsMemory (name.now ∷ words.old)) (show_named name.now words.old) result }
{
    match name {
        b"check" => words.check(heap),
        b"rehearse" => words.rehearse(),
        b"report" => words.end().map(|()| Command::Report),
        b"streams" => words.end().map(|()| Command::Streams),
        b"picture" => words.end().map(|()| Command::Picture),
        b"say" => Ok(Command::Say),
        _ => question(name, words),
    }
}

// A command that changes a grid, shows it or asks about it.
fn call(heap: Global, name: &[u8], words: &mut Words<'_>) -> Result<Command, Mistake>
    ensures { Parses instruction_of (NeedsMemory (name.now ∷ words.old)) (call_named name.now words.old) result }
{
    match name {
        b"open" => words.open(heap),
        b"seek" => words.seek(),
        b"close" => words.only_number().map(Command::Close),
        b"send" => words.send(),
        b"step" => words.only_hop().map(Command::Step),
        b"sweep" => words.end().map(|()| Command::Sweep),
        b"drain" => words.end().map(|()| Command::Drain),
        b"load" => words.load(heap),
        _ => show(heap, name, words),
    }
}

// The command of a name, with the words behind it.
fn named(heap: Global, name: &[u8], words: &mut Words<'_>) -> Result<Command, Mistake>
    ensures { Parses instruction_of (NeedsMemory (name.now ∷ words.old)) (named_instruction name.now words.old) result }
{
    match name {
        b"mesh" => words.mesh(),
        b"link" => words.only_number().map(Command::Link),
        b"turn" => words.turn(),
        b"judge" => words.judge(heap),
        b"grid" => words.grid(),
        _ => call(heap, name, words),
    }
}

/// The command of a line, none where the line has no word, or the first mistake in it. Hops and bytes are kept on the heap,
/// which may have no room for them.
#[tactic(auto, using(crate::proofs::LineMistakes::line_mistakes))]
pub fn parse(heap: Global, line: &[u8]) -> Result<Option<Command>, Mistake>
    ensures value { Parses (option_map instruction_of) (NeedsMemory (words_of line.now)) (command_of (words_of line.now)) result }
    ensures mistakes { OfTheLine (command_of (words_of line.now)) }
{
    let mut words = Words::new(line);
    match words.next() {
        Some(name) => Ok(Some(named(heap, name, &mut words)?)),
        None => Ok(None),
    }
}
