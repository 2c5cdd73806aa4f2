// The sheet (document 01, 'The sheet'): the header, and opening.
#![tactic(auto)]

pub mod header;
pub mod opening;
