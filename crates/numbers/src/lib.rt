// Whole numbers that know nothing of canals: the square root, quotients by one number, signed numbers by their parts, and columns written in place.
#![tactic(auto)]

pub mod columns;
pub mod quotient;
pub mod root;
pub mod signed;
