// A script's session: what is at hand, and the answer to each line.
#![tactic(auto)]

pub mod answer;
mod at_hand;
pub mod brief;
pub mod failure;
mod head;
pub mod session;
#[cfg(test)]
mod tests;
