// Little-endian numbers and columns of them (document 01, 'The sheet'): read from bytes and put into bytes.
#![tactic(auto)]

pub mod putting;
pub mod reading;
