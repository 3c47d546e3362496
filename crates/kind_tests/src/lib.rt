// Tests of a kind of grid that no program has, in a crate of their own.
#![tactic(auto)]

mod check;
#[cfg(test)]
mod plans;
#[cfg(test)]
mod replays;
pub mod ring;
#[cfg(test)]
mod tests;
pub mod upward;
