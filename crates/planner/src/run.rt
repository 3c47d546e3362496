// Running a script.
use crate::picture::print_loads;
use crate::table::print_streams;
use rehearsal::total::Total;
use session::answer::Answer;
use session::brief::Brief;
use session::session::Session;
use std::io;
use std::io::{BufRead, Write};

// Prints the words behind the name of the command, as they stand in the line.
fn say(rt: &HostRuntime, line: &[u8]) -> io::Result<()> {
    let end = line
        .iter()
        .position(|byte| *byte == b'#')
        .unwrap_or(line.len());
    let words = line[..end].trim_ascii();
    let text = words.strip_prefix(b"say").unwrap_or(words).trim_ascii();
    rt.stdout().write_all(text)?;
    println!(rt; "")
}

// Prints the reply to a line of a script, and adds up what its rehearsals come to.
fn reply(
    rt: &HostRuntime,
    session: &mut Session,
    total: &mut Total,
    number: u64,
    line: &[u8],
) -> io::Result<()> {
    match session.reply_briefly(rt.alloc(), number, line) {
        None => Ok(()),
        Some(Ok(None)) => {
            let answer = session.kept();
            if let Answer::Rehearsed(rehearsal) = answer {
                *total = total.and(rehearsal);
            }
            println!(rt; "{answer}")
        }
        Some(Ok(Some(Brief::Say))) => say(rt, line),
        Some(Ok(Some(Brief::Streams))) => print_streams(rt, session),
        Some(Ok(Some(Brief::Picture))) => print_loads(rt, session),
        Some(Ok(Some(Brief::Report))) => println!(rt; "{total}"),
        Some(Ok(Some(brief))) => {
            if let Brief::CameOut(_, items) = brief {
                if let Some(out) = session.came_out(items) {
                    print!(rt; "{out}")?;
                }
            }
            println!(rt; "{brief}")
        }
        Some(Err(failure)) => println!(rt; "{failure}"),
    }
}

// Reads a script and prints the reply to each of its lines.
pub(crate) fn run<R: BufRead + Drop>(rt: &HostRuntime, script: R) -> io::Result<()> {
    let mut session = Session::new();
    let mut total = Total::NONE;
    // counted by hand, since a range or `enumerate` would end at the largest number, where this count stays
    let mut number: u64 = 0;
    for line in script.split(rt.alloc(), b'\n') {
        let line = line?;
        number = number.saturating_add(1);
        reply(rt, &mut session, &mut total, number, line.as_slice())?;
    }
    Ok(())
}
