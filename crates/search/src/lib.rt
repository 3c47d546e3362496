// The search for a best route: measures, and rounds of hops over links and lanes.
#![tactic(auto)]

pub mod choice;
mod costs;
pub mod find;
mod incoming;
pub mod measure;
pub mod peak;
mod places;
mod prepared;
mod rounds;
pub mod scratch;
mod search;
#[cfg(test)]
mod tests;
pub mod total;
mod trace;
