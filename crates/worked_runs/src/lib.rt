// Worked examples of whole steps, of a run, and of document 02's outlets and friction: as in the crate `worked`, apart from it since they take longer to compute.
#![tactic(auto)]

ghost use Rattle.worked_runs.specs.Draws.{DrawsWorked};
ghost use Rattle.worked_runs.specs.Friction.{FrictionWorked};
ghost use Rattle.worked_runs.specs.Outlets.{OutletsWorked};
ghost use Rattle.worked_runs.specs.Steps.{StepsWorked};
ghost use Rattle.worked_runs.specs.Totals.{TotalsWorked};

pub fn steps_worked()
    ensures { StepsWorked }
{}

pub fn outlets_worked()
    ensures { OutletsWorked }
{}

pub fn draws_worked()
    ensures { DrawsWorked }
{}

pub fn totals_worked()
    ensures { TotalsWorked }
{}

pub fn friction_worked()
    ensures { FrictionWorked }
{}
