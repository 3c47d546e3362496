// The planner's script: from the bytes of a line to a command, or to what is wrong with it.
#![tactic(auto)]

mod bytes;
pub mod command;
mod hex;
mod hop;
pub mod mistake;
mod number;
pub mod parse;
mod parts;
#[cfg(test)]
mod tests;
mod words;
