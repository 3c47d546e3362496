// The arguments of the planner.
use std::env::{Env, FillError};
use std::io;

// Argument `index`, if there is one. One that is not UTF-8 is an error.
fn argument(rt: &HostRuntime, index: usize) -> io::Result<Option<String>> {
    let mut size: usize = 256;
    // the buffer doubles until the argument fits
    for _ in 0..usize::BITS {
        let mut bytes = vec![in rt.alloc(); 0; size]?;
        match rt.arg(index, bytes.as_mut_slice()) {
            Ok(length) => {
                bytes.truncate(length);
                return match String::from_utf8(bytes) {
                    Ok(text) => Ok(Some(text)),
                    Err(_) => Err(io::Error::from(io::ErrorKind::InvalidData)),
                };
            }
            Err(FillError::NotPresent) => return Ok(None),
            Err(FillError::TooLong) => size = size.saturating_mul(2),
        }
    }
    Err(io::Error::from(io::ErrorKind::OutOfMemory))
}

// The arguments from 1 on. Argument 0, the name that the planner was started by, may be any bytes and is not read.
pub(crate) fn arguments(rt: &HostRuntime) -> io::Result<Vec<String>> {
    let mut all = Vec::new(rt.alloc());
    for index in 1..usize::MAX {
        match argument(rt, index)? {
            Some(argument) => all.push(argument)?,
            None => break,
        }
    }
    Ok(all)
}
