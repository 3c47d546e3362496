// Tests of plans, in a crate of their own, since each test is proved like any function.
#![tactic(auto)]

#[cfg(test)]
mod round_trips;
#[cfg(test)]
mod verdicts;
