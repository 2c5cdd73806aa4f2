// Worked examples of the grounds for refusal, CFL and the greatest step among them, apart from those of `worked`, which are quicker to compute. The values are
// those of the second implementation too (tests/reference/tests/worked).
#![tactic(auto)]

ghost use Rattle.worked_grounds.specs.Cfl.{CflWorked};
ghost use Rattle.worked_grounds.specs.Grounds.{GroundsWorked};

pub fn cfl_worked()
    ensures { CflWorked }
{}

pub fn grounds_worked()
    ensures { GroundsWorked }
{}
