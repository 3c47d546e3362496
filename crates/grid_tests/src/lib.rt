// Tests of the grid, in a crate of their own, since each test is proved like any function.
#![tactic(auto)]

#[cfg(test)]
mod ahead;
pub mod hub;
#[cfg(test)]
mod seeks;
#[cfg(test)]
mod sweeps;
#[cfg(test)]
mod tests;
