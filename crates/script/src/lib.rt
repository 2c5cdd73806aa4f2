// How a list of calls stands in lent memory, and that every list can.
#![tactic(auto)]

pub mod every;
pub mod words;
