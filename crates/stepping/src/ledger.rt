// The ledger of a step: boundary water (the paper's 'end water') goes in by the sign of N, with the mass of a transport inside the step.
ghost use Rattle.std.specs.Prelude.{◌≡◌, true, ◌≤◌, nat_abs};
ghost use Rattle.reach.specs.Limits.{total_most};
ghost use Rattle.reach.specs.Grounds.{ledger_fits};
ghost use Rattle.transport.specs.Calls.{ledger_with};
ghost use Rattle.transport.specs.Ranges.{Small};
ghost use Rattle.water.specs.Fits.{flux_most};
ghost use Rattle.update.specs.Step.{with_water, with_boundary_water};

use numbers::signed::{left_part, right_part};
use reach::ledger::{Ledger, Totals};
use transport::{BoundaryMass, with_mass};

fn with_water(t: Totals, gained: u64, lost: u64) -> Totals
    requires { (t.water_in ≤ total_most) × ((t.water_out ≤ total_most) × ((gained ≤ flux_most) × (lost ≤ flux_most))) }
    ensures { result ≡ with_water t gained lost }
{
    Totals {
        water_in: t.water_in + gained,
        water_out: t.water_out + lost,
        ..t
    }
}

// `first` and `last` are N at interface 0, positive inwards, and at interface n, positive outwards.
pub fn enter_step(k: Ledger, x: BoundaryMass, first: i64, last: i64) -> Ledger
    requires k_value { (ledger_fits k ≡ true) × Small x.left_in x.left_out x.right_in x.right_out }
    requires first_bound { (nat_abs first ≤ flux_most) × (nat_abs last ≤ flux_most) }
    ensures { result ≡ with_boundary_water (ledger_with k x.left_in x.left_out x.right_in x.right_out) first last }
{
    let moved_left = with_mass(k.left, x.left_in, x.left_out);
    let moved_right = with_mass(k.right, x.right_in, x.right_out);
    Ledger {
        left: with_water(moved_left, right_part(first), left_part(first)),
        right: with_water(moved_right, left_part(last), right_part(last)),
    }
}
