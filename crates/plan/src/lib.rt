// Plans: loading them on a grid, writing them, and the line that tells a verdict.
#![tactic(auto)]

mod buffer;
pub mod check;
pub mod fault;
pub mod line;
mod listed;
pub mod load;
mod put;
pub mod summary;
pub mod write;
