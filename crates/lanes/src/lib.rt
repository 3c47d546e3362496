// The queues of the lanes, over item slots that are lent at each call.
#![tactic(auto)]

mod blank;
mod calls;
mod counts;
mod ring;
mod rings;
pub mod size;
mod sizes;
pub mod strip;
pub mod tables;
