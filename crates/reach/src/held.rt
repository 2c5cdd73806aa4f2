// What travels with the columns by value, from one call to the next, and ground 9.
ghost use Rattle.std.specs.Prelude.{◌≡◌, ◌≤◌};
ghost use Rattle.outlet.specs.Outlets.{outlets_most};
ghost use Rattle.reach.specs.Grounds.{all_totals_fit, pass_or};

use super::boundary::Boundary;
use super::ledger::{Ledger, ledger_fits};
use super::outlets::each_totals_fit;
use super::refusal::Refusal;
use outlet::Outlets;

// The boundaries held, the ledger and the outlets. A call is given them and hands them back, a refused one as they came.
#[repr(C)]
#[derive(Clone, Copy)]
pub struct Held {
    // the left one first
    pub boundaries: [Boundary; 2],
    pub ledger: Ledger,
    // the list that is lent with the record, as the call looks at it
    pub outlets: Outlets,
}

// Every total, of the ledger and of the outlets
#[tactic(auto, unfolding(crate::specs::Grounds::all_totals_fit, numbers::specs::Index::all_of, numbers::specs::Index::all_below))]
pub fn all_totals_fit(held: Held) -> bool
    requires { held.outlets.count ≤ outlets_most }
    ensures { result ≡ all_totals_fit held }
{
    ledger_fits(held.ledger) && (held.outlets.count == 0 || each_totals_fit(held.outlets))
}

pub fn check_totals(held: Held) -> Result<(), Refusal>
    requires { held.outlets.count ≤ outlets_most }
    ensures { result ≡ pass_or Refusal.Ledger (all_totals_fit held) }
{
    Refusal::Ledger.unless(all_totals_fit(held))
}
