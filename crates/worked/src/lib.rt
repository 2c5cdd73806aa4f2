// Worked examples of document 01 that pin the model: each is chosen so that another reading of the paper gives another value. The values are those of the
// second implementation, which asserts the same ones in tests/reference/tests/worked. A function without effect ensures each table, so that the gate proves it.
#![tactic(auto)]

ghost use Rattle.worked.specs.Flux.{FluxWorked};
ghost use Rattle.worked.specs.Shares.{SharesWorked};
ghost use Rattle.worked.specs.Interface.{InterfaceWorked};
ghost use Rattle.worked.specs.Sheets.{SheetsWorked};

pub fn flux_worked()
    ensures { FluxWorked }
{}

pub fn shares_worked()
    ensures { SharesWorked }
{}

pub fn interface_worked()
    ensures { InterfaceWorked }
{}

pub fn sheets_worked()
    ensures { SheetsWorked }
{}
