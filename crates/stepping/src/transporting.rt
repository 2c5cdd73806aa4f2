// The transport test of a step, and the transport inside it.
ghost use Rattle.std.specs.Prelude.{◌≡◌, true, false, cond, ◌+◌, ◌≤◌, leb, pos, neg_ℤ, nat_abs, length, replicate};
ghost use Rattle.numbers.specs.Signed.{positive};
ghost use Rattle.reach.specs.Parts.{drawn_from};
ghost use Rattle.reach.specs.Ranges.{undrawn};
ghost use Rattle.mass.specs.Transport.{mass_columns, moved_outlets};
ghost use Rattle.mass.specs.Ranges.{Ready, OutletsReady, moved_mass};
ghost use Rattle.transport.specs.Ranges.{mass_columns_with};
ghost use Rattle.stepping.specs.Ranges.{Summable, sums_kept, BoundaryMassWhen};

use mass::outlets::move_outlets;
use numbers::signed::{left_part, right_part, sum_of};
use outlet::Outlets;
use reach::boundary::Boundary;
use transport::{BoundaryMass, boundary_mass_of, commit};

// What came into a cell of depth h, over its left and over its right, is covered by it.
fn covers(h: u64, left: i64, right: i64) -> bool
    requires { (nat_abs left ≤ 2_000_000_000) × (nat_abs right ≤ 2_000_000_000) }
    ensures { result ≡ leb (positive left + positive (neg_ℤ right)) h }
{
    right_part(left) + left_part(right) <= h
}

// Whether every cell's base depth covers what left it, with N and what it gives now, over both sides and by its outlets. Base depth and inflow are depth and
// outflow, so that is told by the new depths, whatever was drawn: each covers what came in (`kept_by_depth`).
pub fn keeps_sums(n: usize, carried: &[i64], net: &[i64], new_depth: &[u64]) -> bool
    requires { Summable n carried.now net.now × (n ≤ length new_depth.now) }
    ensures { result ≡ sums_kept n carried.now net.now new_depth.now }
{
    for i in 0..n {
        if !covers(
            new_depth[i],
            sum_of(carried[i], net[i]),
            sum_of(carried[i + 1], net[i + 1]),
        ) {
            return false;
        }
    }
    true
}

// The mass that crosses both boundaries where the step transports first; none where it does not
pub fn boundary_mass_when(
    transports: bool,
    mass: &[u64],
    base: &[u64],
    carried: &[i64],
    boundaries: [Boundary; 2],
) -> BoundaryMass
    requires ready { Ready (mass_columns_with mass.now base.now carried.now undrawn boundaries) }
    requires in_bounds { 1 ≤ length mass.now }
    ensures { BoundaryMassWhen transports (mass_columns_with mass.now base.now carried.now undrawn boundaries) result.left_in result.left_out result.right_in result.right_out }
{
    if !transports {
        return BoundaryMass::default();
    }
    boundary_mass_of(mass, base, carried, boundaries)
}

// The outlets after the transport inside a step
pub fn move_outlets_when(
    transports: bool,
    mass: &[u64],
    base: &[u64],
    carried: &[i64],
    outlets: Outlets,
) -> Outlets
    requires { OutletsReady mass.now base.now carried.now outlets }
    ensures { result ≡ cond transports (moved_outlets (mass_columns mass.now base.now carried.now (drawn_from outlets) 0 0) outlets) outlets }
{
    if !transports {
        return outlets;
    }
    move_outlets(mass, base, carried, outlets)
}

// The transport inside a step, with the depths from before it, but for what the outlets have
pub fn transport_when(
    transports: bool,
    depth: &[u64],
    mass: &mut [u64],
    base: &mut [u64],
    carried: &mut [i64],
    left_in: u64,
    right_in: u64,
)
    requires ready { transports ≡ true → Ready (mass_columns mass.old base.old carried.old undrawn left_in right_in) }
    requires base_len { length base.old ≡ length depth.now }
    ensures mass_after { mass.new ≡ cond transports (moved_mass (mass_columns mass.old base.old carried.old undrawn left_in right_in)) mass.old }
    ensures base_after { base.new ≡ cond transports depth.now base.old }
    ensures carried_after { carried.new ≡ cond transports (replicate (length carried.old) (pos 0)) carried.old }
{
    if !transports {
        return;
    }
    commit(depth, mass, base, carried, left_in, right_in);
}
