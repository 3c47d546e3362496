// Routes of streams: hops, loads, and the judgement of a route.
#![tactic(auto)]

mod check;
pub mod declined;
pub mod hop;
pub mod judge;
pub mod load;
pub mod route;
mod route_hops;
pub mod stream;
#[cfg(test)]
mod tests;
