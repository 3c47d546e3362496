// Layouts: which tiles and links there are, and how two links may follow each other.
#![tactic(auto)]

pub mod direction;
mod link;
pub mod mesh;
mod numbering;
pub mod rules;
mod size;
#[cfg(test)]
mod tests;
pub mod turn;
pub mod turn_rule;
pub mod ways;
