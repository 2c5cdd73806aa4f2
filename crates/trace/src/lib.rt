// Demand 3: what holds after every list of calls of the delivered functions; that every list has its chain, and that the tally judges each call as the program does.
#![tactic(auto)]

ghost use Rattle.trace.specs.Trace.{Demand3, EveryChain, EveryCall, EveryWants, SameAnswer};

// No effect: the crate is proved only with the theorem.
pub fn demand_3()
    ensures { Demand3 }
{}

pub fn every_chain()
    ensures every_chain { EveryChain }
    ensures every_call { EveryCall }
    ensures every_wants { EveryWants }
{}

pub fn same_answer()
    ensures { SameAnswer }
{}
