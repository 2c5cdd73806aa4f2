// What outlets want and have drawn, summed by cell, and a cell's grant dealt out to its outlets.
#![tactic(auto)]

pub mod adding;
pub mod amounts;
pub mod dealing;
