// The bytes of plans: numbers, heads and records.
#![tactic(auto)]

pub mod head;
pub mod hop;
pub mod number;
pub mod record;
