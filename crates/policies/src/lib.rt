// Policies: what a kind of grid owes, and the kind by the rules of a layout.
#![tactic(auto)]

pub mod climbing;
pub mod policy;
pub mod table_policy;
#[cfg(test)]
mod tests;
