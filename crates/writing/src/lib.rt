// Writing a sheet (document 01, 'The sheet'): the header, the call, and the round trip.
#![tactic(auto)]

pub mod header;
pub mod round_trip;
pub mod write;
