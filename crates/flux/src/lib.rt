// What crosses an interface between two cells in one time step (document 01, 'A water step', the first four rules).
// The crate above uses these functions through their contracts, and the laws of proofs/ about the definitions, alone.
#![tactic(auto)]

pub mod crossing;
pub mod interface;
pub mod velocity;
pub mod wave;
