// The tally of demand 3, and what holds after every list of calls, of the definitions. That the functions' own contracts link a list of calls
// to these definitions is the crate `trace`.
#![tactic(auto)]

ghost use Rattle.tally.specs.Holds.{OfDefinitions};

// No effect: the crate is proved only with the theorem.
pub fn of_definitions()
    ensures { OfDefinitions }
{}
