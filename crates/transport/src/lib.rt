// The calls that move mass: transport (document 01, 'Settling') and the setting of boundaries ('end setting').
#![tactic(auto)]

ghost use Rattle.std.specs.Prelude.{◌≡◌, true, ◌+◌, ◌≤◌, pos, length, replicate};
ghost use Rattle.mass.specs.Transport.{mass_columns};
ghost use Rattle.mass.specs.Ranges.{Ready, mass_most, moved_mass};
ghost use Rattle.reach.specs.Limits.{total_most};
ghost use Rattle.outlet.specs.Outlets.{outlets_most};
ghost use Rattle.reach.specs.Ranges.{undrawn};
ghost use Rattle.reach.specs.Reach.{reach_of, came};
ghost use Rattle.reach.specs.Grounds.{ledger_fits, all_totals_fit, first_refusal, record_grounds, pass_or};
ghost use Rattle.reach.specs.Refusals.{number};
ghost use Rattle.transport.specs.Calls.{with_mass, ledger_with, set_boundaries, transport as transportOf, CameTo};
ghost use Rattle.transport.specs.Ranges.{mass_columns_with, BoundaryMassOf, Small, answer};

use mass::outlets::{move_outlets, take_gains};
use mass::{move_mass, shares_at};
use numbers::signed::{left_part, right_part};
use reach::boundary::Boundary;
use reach::check_record;
use reach::held::{Held, all_totals_fit};
use reach::ledger::{Ledger, Totals};
use reach::refusal::Refusal;

// What a transport or a setting of boundaries hands back: 0 or the number of its refusal, the boundaries held from now on, and the ledger.
// A refused call hands the boundaries and the ledger back as they came.
#[repr(C)]
#[derive(Clone, Copy)]
pub struct TransportAnswer {
    pub refusal: u32,
    pub held: Held,
}

fn refused(r: Refusal, held: Held) -> TransportAnswer
    ensures { result ≡ answer (number r) held }
{
    TransportAnswer {
        refusal: r.into(),
        held,
    }
}

// The mass that crosses both boundaries
#[derive(Clone, Copy, Default)]
pub struct BoundaryMass {
    pub left_in: u64,
    pub left_out: u64,
    pub right_in: u64,
    pub right_out: u64,
}

// What enters is the water that came in times the boundary's concentration; what leaves are shares of the first and the last cell.
pub fn boundary_mass_of(
    mass: &[u64],
    base: &[u64],
    carried: &[i64],
    boundaries: [Boundary; 2],
) -> BoundaryMass
    requires ready { Ready (mass_columns_with mass.now base.now carried.now undrawn boundaries) }
    requires in_bounds { 1 ≤ length mass.now }
    ensures { BoundaryMassOf (mass_columns_with mass.now base.now carried.now undrawn boundaries) result.left_in result.left_out result.right_in result.right_out }
{
    let n = mass.len();
    let left_in = right_part(carried[0]) * boundaries[0].concentration;
    let right_in = left_part(carried[n]) * boundaries[1].concentration;
    let first = shares_at(mass, base, carried, 0);
    let last = shares_at(mass, base, carried, n - 1);
    BoundaryMass {
        left_in,
        left_out: first.left,
        right_in,
        right_out: last.right,
    }
}

pub fn with_mass(t: Totals, gained: u64, lost: u64) -> Totals
    requires { (t.mass_in ≤ total_most) × ((t.mass_out ≤ total_most) × ((gained ≤ mass_most) × (lost ≤ mass_most))) }
    ensures { result ≡ with_mass t gained lost }
{
    Totals {
        mass_in: t.mass_in + gained,
        mass_out: t.mass_out + lost,
        ..t
    }
}

// The ledger after a transport
fn entered(k: Ledger, x: BoundaryMass) -> Ledger
    requires { (ledger_fits k ≡ true) × Small x.left_in x.left_out x.right_in x.right_out }
    ensures { result ≡ ledger_with k x.left_in x.left_out x.right_in x.right_out }
{
    Ledger {
        left: with_mass(k.left, x.left_in, x.left_out),
        right: with_mass(k.right, x.right_in, x.right_out),
    }
}

// Ground 13, of the totals that a call would leave
pub fn check_room(held: Held) -> Result<(), Refusal>
    requires { held.outlets.count ≤ outlets_most }
    ensures { result ≡ pass_or Refusal.Total (all_totals_fit held) }
{
    Refusal::Total.unless(all_totals_fit(held))
}

// Shares move but those of the outlets, the base depth becomes the depth, the carried water becomes 0. Nothing refuses any more.
pub fn commit(
    depth: &[u64],
    mass: &mut [u64],
    base: &mut [u64],
    carried: &mut [i64],
    left_in: u64,
    right_in: u64,
)
    requires ready { Ready (mass_columns mass.old base.old carried.old undrawn left_in right_in) }
    requires base_len { length base.old ≡ length depth.now }
    ensures mass_after { mass.new ≡ moved_mass (mass_columns mass.old base.old carried.old undrawn left_in right_in) }
    ensures base_after { base.new ≡ depth.now }
    ensures carried_after { carried.new ≡ replicate (length carried.old) (pos 0) }
{
    move_mass(mass, base, carried, left_in, right_in);
    base.copy_from_slice(depth);
    carried.fill(0);
}

// Ground 13 and the transport itself, on a record that stood the grounds before
fn transport_under(
    bed: &[i64],
    depth: &[u64],
    discharge: &[i64],
    mass: &mut [u64],
    base: &mut [u64],
    carried: &mut [i64],
    x: u64,
    held: Held,
    given: [Boundary; 2],
) -> TransportAnswer
    requires { first_refusal (record_grounds (reach_of bed.now depth.now discharge.now mass.old base.old carried.old x held) given) ≡ Ok tt }
    ensures { CameTo (set_boundaries (came bed.now depth.now discharge.now mass.old base.old carried.old x held) given) result mass.new base.new carried.new }
{
    let old = held.boundaries;
    let ledger = held.ledger;
    let outlets = held.outlets;
    let crossed = boundary_mass_of(mass, base, carried, old);
    let next = entered(ledger, crossed);
    let moved = move_outlets(mass, base, carried, outlets);
    let after = Held {
        boundaries: given,
        ledger: next,
        outlets: moved,
    };
    if let Err(r) = check_room(after) {
        return refused(r, held);
    }
    commit(
        depth,
        mass,
        base,
        carried,
        crossed.left_in,
        crossed.right_in,
    );
    if outlets.count == 0 {
        return TransportAnswer {
            refusal: 0,
            held: after,
        };
    }
    take_gains(mass, outlets, moved);
    TransportAnswer {
        refusal: 0,
        held: after,
    }
}

// Sets both boundaries, transporting first under the pair held so far.
pub fn set_boundaries(
    bed: &[i64],
    depth: &[u64],
    discharge: &[i64],
    mass: &mut [u64],
    base: &mut [u64],
    carried: &mut [i64],
    x: u64,
    held: Held,
    given: [Boundary; 2],
) -> TransportAnswer
    ensures { CameTo (set_boundaries (came bed.now depth.now discharge.now mass.old base.old carried.old x held) given) result mass.new base.new carried.new }
{
    if let Err(r) = check_record(bed, depth, discharge, mass, base, carried, x, held, given) {
        return refused(r, held);
    }
    transport_under(bed, depth, discharge, mass, base, carried, x, held, given)
}

// Transports by itself: the paper's 'settling'.
pub fn transport(
    bed: &[i64],
    depth: &[u64],
    discharge: &[i64],
    mass: &mut [u64],
    base: &mut [u64],
    carried: &mut [i64],
    x: u64,
    held: Held,
) -> TransportAnswer
    ensures { CameTo (transportOf (came bed.now depth.now discharge.now mass.old base.old carried.old x held)) result mass.new base.new carried.new }
{
    let given = held.boundaries;
    set_boundaries(bed, depth, discharge, mass, base, carried, x, held, given)
}
