// The call of a water step (document 01, 'A water step').
#![tactic(auto)]

pub mod ledger;
pub mod outlets;
pub mod step;
pub mod transporting;
