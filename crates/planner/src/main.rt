// The planner: reads scripts and prints the reply to each of their lines.
#![tactic(auto)]

mod arguments;
mod picture;
mod run;
mod table;

use crate::arguments::arguments;
use crate::run::run;
use std::io::BufReader;
use std::{fs, io};

// Runs the scripts in the files that are named, one after another, each from its beginning with nothing at hand; the script on
// standard input if none is named, and for the name `-`.
fn main(rt: HostRuntime) -> io::Result<()> {
    let names = arguments(&rt)?;
    if names.is_empty() {
        return run(&rt, BufReader::new(rt.alloc(), rt.stdin())?);
    }
    for name in names {
        if name.as_str() == "-" {
            run(&rt, BufReader::new(rt.alloc(), rt.stdin())?)?;
        } else {
            match fs::open(&rt, name.as_str()) {
                Ok(file) => run(&rt, BufReader::new(rt.alloc(), file)?)?,
                Err(error) => {
                    eprintln!(rt; "the planner cannot read {name}")?;
                    return Err(error);
                }
            }
        }
    }
    Ok(())
}
