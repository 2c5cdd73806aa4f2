// A call of the list, as it stands in lent memory, played through its function.
#![tactic(auto)]

pub mod call;

use reach::held::Held;

// What a call answered, and X, boundaries, ledger and outlets as it left them
#[derive(Clone, Copy)]
pub struct Played {
    pub refusal: u32,
    pub transported: bool,
    pub time: u64,
    pub place: usize,
    pub cell_length: u64,
    pub held: Held,
}
