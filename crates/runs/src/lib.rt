// Runs: lists of calls on a grid that starts blank.
#![tactic(auto)]

pub mod call;
pub mod given;
pub mod given_or_best;
pub mod lent;
mod make;
pub mod replay;
pub mod routing;
#[cfg(test)]
mod tests;
