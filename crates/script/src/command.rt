// The commands of a script.
use lanes::strip::Strip;
use layouts::turn_rule::TurnRule;
use routes::hop::Hop;
use routes::stream::Request;

/// A measure of routes, by its name.
#[derive(Clone, Copy, PartialEq, Eq, Debug)]
pub enum MeasureName {
    /// The sum of the loads.
    Total,
    /// The largest load, and how many hops bear it.
    Peak,
}

/// The beat of a rehearsal, by its name.
#[derive(Clone, Copy, PartialEq, Eq, Debug)]
pub enum BeatName {
    /// All streams alike.
    Even,
    /// Some streams faster than others, by turns.
    Uneven,
}

/// A command of a script.
#[derive(PartialEq, Eq, Debug, Drop)]
pub enum Command {
    /// Make a mesh of a rule, a width and a height.
    Mesh(TurnRule, u16, u16),
    /// Tell the start and the end of a link.
    Link(u16),
    /// Tell the turn from one link to another.
    Turn(u16, u16),
    /// Judge a route of these hops for what a stream asks for.
    Judge(Request, Vec<Hop>),
    /// Make a blank grid: on a mesh of a rule, a width and a height, with so many lanes to a link, a depth and a capacity.
    Grid {
        rule: TurnRule,
        width: u16,
        height: u16,
        lanes: u16,
        depth: u16,
        capacity: u16,
    },
    /// Open the stream of this number for what it asks for, by a route of these hops.
    Open(u16, Request, Vec<Hop>),
    /// Open the stream of this number for what it asks for, by a best route of this measure.
    Seek(u16, Request, MeasureName),
    /// Close a stream.
    Close(u16),
    /// Send a strip by a stream.
    Send(u16, Strip),
    /// Step the lane of this hop.
    Step(Hop),
    /// Tell what an open stream asks for.
    Stream(u16),
    /// Tell the hops of an open stream.
    Route(u16),
    /// Tell the load of a link.
    LinkLoad(u16),
    /// Tell how many items the lane of this hop holds.
    Count(Hop),
    /// Tell how many items are on the grid.
    Items,
    /// Tell how many hops are ahead.
    Ahead,
    /// Try a step on every lane once.
    Sweep,
    /// Sweep until nothing is on the grid.
    Drain,
    /// Load the plan of these bytes.
    Load(Vec<u8>),
    /// Tell the plan of the open streams.
    Write,
    /// Tell the verdict on the plan of these bytes.
    Check(Vec<u8>),
    /// Rehearse with so many strips of each open stream, in a beat.
    Rehearse(u16, BeatName),
    /// Tell what the rehearsals came to together.
    Report,
    /// Tell the open streams in a table.
    Streams,
    /// Tell the loads of the links in a picture of the grid.
    Picture,
    /// Tell the words behind the name of the command.
    Say,
}
