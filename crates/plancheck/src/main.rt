// Checks a plan: reads it from standard input, loads it on a blank grid of its own, and prints the line that tells the verdict.
#![tactic(auto)]

use plan::check::{LIMIT, check};
use plan::line::{LONGEST_LINE, compose};
use std::io;
use std::io::{Read, Write};

fn main(rt: HostRuntime) -> io::Result<()> {
    let mut plan = Vec::new(rt.alloc());
    rt.stdin().take(LIMIT as u64).read_to_end(&mut plan)?;
    let verdict = check(rt.alloc(), plan.as_slice())?;
    let mut line = [0; LONGEST_LINE];
    // proved to have room
    let size = compose(&verdict, &mut line).unwrap();
    rt.stdout().write_all(&line[..size])
}
