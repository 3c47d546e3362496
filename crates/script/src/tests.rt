// Lines of a script and what they read as.
use crate::command::{BeatName, Command, MeasureName};
use crate::mistake::Mistake;
use crate::parse::parse;
use lanes::strip::Strip;
use layouts::turn_rule::TurnRule;
use routes::hop::Hop;
use routes::stream::Request;
use std::test::Fail;

#[test]
fn commands(rt: HostRuntime) -> Result<(), Fail> {
    let heap = rt.alloc();
    let request = Request {
        source: 0,
        target: 8,
        demand: 10,
    };
    let hops = vec![in heap; Hop { link: 12, lane: 0 }, Hop { link: 7, lane: 255 }]?;
    let lines: [(&[u8], Option<Command>); 11] = [
        (b"", None),
        (b" \t\r\n", None),
        (b"# mesh xy 3 3", None),
        (b"mesh xy 2 8", Some(Command::Mesh(TurnRule::Xy, 2, 8))),
        (
            b"mesh negative-first 0 65535",
            Some(Command::Mesh(TurnRule::NegativeFirst, 0, 65535)),
        ),
        (b"\tlink   007\r", Some(Command::Link(7))),
        (b"link 7#8", Some(Command::Link(7))),
        (b"link 7 # a comment \xff", Some(Command::Link(7))),
        (b"turn 0 5\n", Some(Command::Turn(0, 5))),
        (
            b"judge 0 8 10",
            Some(Command::Judge(request, Vec::new(heap))),
        ),
        (
            b"judge 0 8 10 12.0 7.255",
            Some(Command::Judge(request, hops)),
        ),
    ];
    for (line, command) in lines {
        assert_eq!(rt; parse(heap, line), Ok(command));
    }
    Ok(())
}

#[test]
fn grid_commands(rt: HostRuntime) -> Result<(), Fail> {
    let heap = rt.alloc();
    let request = Request {
        source: 0,
        target: 8,
        demand: 10,
    };
    let hop = Hop {
        link: 12,
        lane: 255,
    };
    let strip = Strip {
        fragment: 4294967295,
        band: 255,
        row: 65535,
    };
    let lines: [(&[u8], Command); 16] = [
        (
            b"grid west-first 3 4 2 8 100",
            Command::Grid {
                rule: TurnRule::WestFirst,
                width: 3,
                height: 4,
                lanes: 2,
                depth: 8,
                capacity: 100,
            },
        ),
        (
            b"open 63 0 8 10",
            Command::Open(63, request, Vec::new(heap)),
        ),
        (
            b"open 63 0 8 10 12.255",
            Command::Open(63, request, vec![in heap; hop]?),
        ),
        (
            b"seek 63 0 8 10 total",
            Command::Seek(63, request, MeasureName::Total),
        ),
        (
            b"seek 65535 0 8 10 peak#",
            Command::Seek(65535, request, MeasureName::Peak),
        ),
        (b"close 63", Command::Close(63)),
        (b"send 5 4294967295 255 65535", Command::Send(5, strip)),
        (b"step 12 255", Command::Step(hop)),
        (b"stream 5", Command::Stream(5)),
        (b"route 5", Command::Route(5)),
        (b"linkload 12", Command::LinkLoad(12)),
        (b"count 12 255", Command::Count(hop)),
        (b"items", Command::Items),
        (b"ahead", Command::Ahead),
        (b" sweep # once", Command::Sweep),
        (b"drain # to the end", Command::Drain),
    ];
    for (line, command) in lines {
        assert_eq!(rt; parse(heap, line), Ok(Some(command)));
    }
    Ok(())
}

#[test]
fn plan_commands(rt: HostRuntime) -> Result<(), Fail> {
    let heap = rt.alloc();
    let lines: [(&[u8], Command); 9] = [
        (b"load", Command::Load(Vec::new(heap))),
        (b"load # 01", Command::Load(Vec::new(heap))),
        (b"load 010203", Command::Load(vec![in heap; 1, 2, 3]?)),
        (b"load 0102 03", Command::Load(vec![in heap; 1, 2, 3]?)),
        (
            b"load\t01 02 03#04\r",
            Command::Load(vec![in heap; 1, 2, 3]?),
        ),
        (
            b"load 09af 90fa",
            Command::Load(vec![in heap; 9, 175, 144, 250]?),
        ),
        (
            b"load AFfA fF00",
            Command::Load(vec![in heap; 175, 250, 255, 0]?),
        ),
        (b"write", Command::Write),
        (b" write # all of it", Command::Write),
    ];
    for (line, command) in lines {
        assert_eq!(rt; parse(heap, line), Ok(Some(command)));
    }
    Ok(())
}

#[test]
fn job_commands(rt: HostRuntime) -> Result<(), Fail> {
    let heap = rt.alloc();
    let lines: [(&[u8], Command); 9] = [
        (b"check 0102 03", Command::Check(vec![in heap; 1, 2, 3]?)),
        (b"check", Command::Check(Vec::new(heap))),
        (b"rehearse 65535", Command::Rehearse(65535, BeatName::Even)),
        (b"rehearse 3 even", Command::Rehearse(3, BeatName::Even)),
        (b"rehearse 3 uneven", Command::Rehearse(3, BeatName::Uneven)),
        (b"report", Command::Report),
        (b"streams # all", Command::Streams),
        (b"picture", Command::Picture),
        (b"say any words, 12 of them", Command::Say),
    ];
    for (line, command) in lines {
        assert_eq!(rt; parse(heap, line), Ok(Some(command)));
    }
    Ok(())
}

#[test]
fn mistakes(rt: HostRuntime) {
    let lines: [(&[u8], Mistake); 18] = [
        (b"walk", Mistake::UnknownCommand),
        (b"Link 7", Mistake::UnknownCommand),
        (b"link\x007", Mistake::UnknownCommand),
        (b"mesh", Mistake::MissingWord),
        (b"mesh xy 3", Mistake::MissingWord),
        (b"turn 0 5 3", Mistake::ExtraWord),
        (b"mesh zigzag three", Mistake::UnknownRule),
        (b"link -1", Mistake::NotANumber),
        (b"link 1.0", Mistake::NotANumber),
        (b"link 65536", Mistake::NumberTooLarge),
        (b"link 99999999999999999999999", Mistake::NumberTooLarge),
        (b"link 99999999999999999999999x", Mistake::NotANumber),
        (b"judge 0 8", Mistake::MissingWord),
        (b"judge 0 8 10 12-0 x", Mistake::NotAHop),
        (b"judge 0 8 10 12.0 .0", Mistake::NotANumber),
        (b"judge 0 8 10 12.0.0", Mistake::NotANumber),
        (b"judge 0 8 10 65536.x", Mistake::NumberTooLarge),
        (b"judge 0 8 10 12.256", Mistake::NumberTooLarge),
    ];
    for (line, mistake) in lines {
        assert_eq!(rt; parse(rt.alloc(), line), Err(mistake));
    }
}

#[test]
fn grid_mistakes(rt: HostRuntime) {
    let lines: [(&[u8], Mistake); 34] = [
        (b"grid xy 3 3 2 8", Mistake::MissingWord),
        (b"grid xy 3 3 2 8 100 1", Mistake::ExtraWord),
        (b"grid zigzag three", Mistake::UnknownRule),
        (b"open 5 0 8", Mistake::MissingWord),
        (b"open 65536 0 8 10", Mistake::NumberTooLarge),
        (b"open 5 0 8 10 12 0", Mistake::NotAHop),
        (b"seek", Mistake::MissingWord),
        (b"seek 5 0 8", Mistake::MissingWord),
        (b"seek 5 0 8 10", Mistake::MissingWord),
        (b"seek 5 0 8 10 total 1", Mistake::ExtraWord),
        (b"seek 5 0 8 10 mean 1", Mistake::UnknownMeasure),
        (b"seek 5 0 8 10 Peak", Mistake::UnknownMeasure),
        (b"seek 5 0 8 10 peak5", Mistake::UnknownMeasure),
        (b"seek 65536 0 8 10 peak", Mistake::NumberTooLarge),
        (b"seek 5 0 8 65536 mean", Mistake::NumberTooLarge),
        (b"seek 5 0 total 10 8", Mistake::NotANumber),
        (b"close", Mistake::MissingWord),
        (b"close 5 6", Mistake::ExtraWord),
        (b"send 5 1 2", Mistake::MissingWord),
        (b"send 5 1 2 3 4", Mistake::ExtraWord),
        (b"send 5 4294967296 2 3", Mistake::NumberTooLarge),
        (b"send 5 1 256 3", Mistake::NumberTooLarge),
        (b"step 12", Mistake::MissingWord),
        (b"step 12 256 x", Mistake::NumberTooLarge),
        (b"step 12.0", Mistake::NotANumber),
        (b"count 12 3 0", Mistake::ExtraWord),
        (b"linkload", Mistake::MissingWord),
        (b"items 1", Mistake::ExtraWord),
        (b"ahead 1", Mistake::ExtraWord),
        (b"aheads", Mistake::UnknownCommand),
        (b"sweep 1", Mistake::ExtraWord),
        (b"sweeper", Mistake::UnknownCommand),
        (b"drain 1", Mistake::ExtraWord),
        (b"drained", Mistake::UnknownCommand),
    ];
    for (line, mistake) in lines {
        assert_eq!(rt; parse(rt.alloc(), line), Err(mistake));
    }
}

#[test]
fn plan_mistakes(rt: HostRuntime) {
    let lines: [(&[u8], Mistake); 29] = [
        (b"load 0", Mistake::NotBytes),
        (b"load 010", Mistake::NotBytes),
        (b"load 01 0 2", Mistake::NotBytes),
        (b"load 0 102", Mistake::NotBytes),
        (b"load 0g", Mistake::NotBytes),
        (b"load g0", Mistake::NotBytes),
        (b"load 0G", Mistake::NotBytes),
        (b"load 0/", Mistake::NotBytes),
        (b"load 0:", Mistake::NotBytes),
        (b"load @0", Mistake::NotBytes),
        (b"load `0", Mistake::NotBytes),
        (b"load 0x01", Mistake::NotBytes),
        (b"load 01,02", Mistake::NotBytes),
        (b"load -1", Mistake::NotBytes),
        (b"load 01 \xff\xff", Mistake::NotBytes),
        (b"Load 01", Mistake::UnknownCommand),
        (b"write 01", Mistake::ExtraWord),
        (b"writes", Mistake::UnknownCommand),
        (b"check 01 0", Mistake::NotBytes),
        (b"rehearse", Mistake::MissingWord),
        (b"rehearse all", Mistake::NotANumber),
        (b"rehearse 65536 slow", Mistake::NumberTooLarge),
        (b"rehearse 3 slow 4", Mistake::UnknownBeat),
        (b"rehearse 3 even 4", Mistake::ExtraWord),
        (b"rehearse 3 4", Mistake::UnknownBeat),
        (b"report 1", Mistake::ExtraWord),
        (b"streams 1", Mistake::ExtraWord),
        (b"picture 1", Mistake::ExtraWord),
        (b"says", Mistake::UnknownCommand),
    ];
    for (line, mistake) in lines {
        assert_eq!(rt; parse(rt.alloc(), line), Err(mistake));
    }
}
