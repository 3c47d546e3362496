// The grid that runs: tables of streams and lanes on any ways, by any policy, and the calls on them.
#![tactic(auto)]

mod ahead;
mod calls;
pub mod drain;
mod drains;
pub mod grid;
mod items;
mod law;
pub mod make;
mod opens;
mod questions;
mod seek;
pub mod step;
mod streams;
pub mod sweep;
mod sweeps;
pub mod tables;
