// Rehearsals: every open stream sends its strips, and the lanes step until all are out.
#![tactic(auto)]

pub mod beat;
pub mod rehearse;
pub mod tally;
pub mod total;
