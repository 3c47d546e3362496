// The grid in the words of its subject, and the law of every run: definitions and proofs, hardly any code.
#![tactic(auto)]

pub mod law;
