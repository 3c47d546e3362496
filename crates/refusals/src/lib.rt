// Why a call is declined.
#![tactic(auto)]

pub mod refusal;
