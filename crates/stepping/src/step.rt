// A water step (document 01, 'A water step'): grounds 4 to 13 and 17 in checking order, all of them before the first write.
ghost use Rattle.std.specs.Prelude.{◌≡◌, true, cond, ℕ, ◌≤◌, ◌<◌, leb, pos, ◌+ℤ◌, nat_abs, length, get_or};
ghost use Rattle.numbers.specs.Index.{all_below, tabulate};
ghost use Rattle.flux.specs.Limits.{depth_most};
ghost use Rattle.friction.specs.Friction.{strickler_fits};
ghost use Rattle.reach.specs.Reach.{reach_of, came, with_totals};
ghost use Rattle.reach.specs.Parts.{drawn_from};
ghost use Rattle.reach.specs.Ranges.{undrawn};
ghost use Rattle.reach.specs.Grounds.{first_refusal, record_grounds, ledger_fits, pass_or};
ghost use Rattle.mass.specs.Transport.{mass_columns, moved_outlets};
ghost use Rattle.mass.specs.Ranges.{Ready, OutletsReady};
ghost use Rattle.transport.specs.Calls.{ledger_with};
ghost use Rattle.transport.specs.Ranges.{mass_columns_with, Small};
ghost use Rattle.water.specs.Fits.{flux_most};
ghost use Rattle.reach.specs.Refusals.{number};
ghost use Rattle.update.specs.Step.{with_boundary_water, time_fits};
ghost use Rattle.stepping.specs.Ranges.{BoundaryMassWhen, Room, with_draws, StepPasses, StepFound};
ghost use Rattle.stepping.specs.StepCall.{stopped_by, StepCameTo};

use super::ledger::enter_step;
use super::outlets::{deal_out, draw, wants_by_cell};
use super::transporting::{boundary_mass_when, keeps_sums, move_outlets_when, transport_when};
use friction::strickler_fits;
use mass::outlets::take_gains;
use numbers::columns::add_column;
use reach::cells::CELLS_MOST;
use reach::check_record;
use reach::held::Held;
use reach::refusal::Refusal;
use sweeping::sweep;
use transport::{BoundaryMass, check_room};

// What a step hands back: 0 or the number of its refusal, the boundaries held, the ledger, and whether it transported first.
// A refused step hands the boundaries and the ledger back as they came, and has not transported.
#[repr(C)]
#[derive(Clone, Copy)]
pub struct StepAnswer {
    pub refusal: u32,
    pub held: Held,
    pub transported: bool,
}

fn refused(r: Refusal, held: Held) -> StepAnswer
    ensures { result ≡ stopped_by (number r) held }
{
    StepAnswer {
        refusal: r.into(),
        held,
        transported: false,
    }
}

// Ground 10
#[tactic(auto, unfolding(update::specs::Step::time_fits, numbers::specs::Index::all_of))]
fn check_time(t: u64) -> Result<(), Refusal>
    ensures { result ≡ pass_or Refusal.TimeStep (time_fits t) }
{
    Refusal::TimeStep.unless(1 <= t && t <= 1_000)
}

// Ground 12, of the first n depths
fn check_depths(depth: &[u64], n: usize) -> Result<(), Refusal>
    requires { n ≤ length depth.now }
    ensures { result ≡ pass_or Refusal.Depth (all_below n (λ i. leb (get_or depth.now i 0) depth_most)) }
{
    for i in 0..n {
        if 4_000_000 < depth[i] {
            return Err(Refusal::Depth);
        }
    }
    Ok(())
}

// The water of an accepted step: depth and discharge as the sweep found them, and N added to the carried water
fn write_step(
    depth: &mut [u64],
    discharge: &mut [i64],
    carried: &mut [i64],
    net: &[i64],
    new_depth: &[u64],
    new_discharge: &[i64],
)
    requires depth_in_bounds { (length depth.old ≤ length new_depth.now) × ((length discharge.old ≤ length new_discharge.now) × (length carried.old ≤ length net.now)) }
    requires by_index { (i : ℕ) → i < length carried.old → (nat_abs (get_or carried.old i (pos 0)) ≤ 1_000_000_000) × (nat_abs (get_or net.now i (pos 0)) ≤ 1_000_000_000) }
    ensures depth_after { depth.new ≡ tabulate (length depth.old) (λ i. get_or new_depth.now i 0) }
    ensures discharge_after { discharge.new ≡ tabulate (length discharge.old) (λ i. get_or new_discharge.now i (pos 0)) }
    ensures carried_after { carried.new ≡ tabulate (length carried.old) (λ i. get_or carried.old i (pos 0) +ℤ get_or net.now i (pos 0)) }
{
    depth.copy_from_slice(&new_depth[..depth.len()]);
    discharge.copy_from_slice(&new_discharge[..discharge.len()]);
    add_column(carried, net);
}

// What is held after the step, and the mass that enters where it transports first
#[derive(Clone, Copy)]
struct Booked {
    held: Held,
    crossed: BoundaryMass,
}

// The mass of a transport inside the step, the boundary water and what the outlets have go into their totals. `first` and `last` are N at
// interface 0 and at interface n.
fn book(
    transports: bool,
    mass: &[u64],
    base: &[u64],
    carried: &[i64],
    held: Held,
    got: [u64; 32],
    first: i64,
    last: i64,
) -> Booked
    requires ready { Ready (mass_columns_with mass.now base.now carried.now undrawn held.boundaries) }
    requires in_bounds { (1 ≤ length mass.now) × OutletsReady mass.now base.now carried.now held.outlets }
    requires small { (a b c d : ℕ) → BoundaryMassWhen transports (mass_columns_with mass.now base.now carried.now undrawn held.boundaries) a b c d → Small a b c d }
    requires room { Room held.outlets got × Room (cond transports (moved_outlets (mass_columns mass.now base.now carried.now (drawn_from held.outlets) 0 0) held.outlets) held.outlets) got }
    requires ledger_value { (ledger_fits held.ledger ≡ true) × ((nat_abs first ≤ flux_most) × (nat_abs last ≤ flux_most)) }
    ensures boundary_mass_when { BoundaryMassWhen transports (mass_columns_with mass.now base.now carried.now undrawn held.boundaries) result.crossed.left_in result.crossed.left_out result.crossed.right_in result.crossed.right_out }
    ensures held_value { result.held ≡ with_totals (with_boundary_water (ledger_with held.ledger result.crossed.left_in result.crossed.left_out result.crossed.right_in result.crossed.right_out) first last) (with_draws (cond transports (moved_outlets (mass_columns mass.now base.now carried.now (drawn_from held.outlets) 0 0) held.outlets) held.outlets) got) held }
{
    let boundaries = held.boundaries;
    let old = held.ledger;
    let before = held.outlets;
    let crossed = boundary_mass_when(transports, mass, base, carried, boundaries);
    let ledger = enter_step(old, crossed, first, last);
    let moved = move_outlets_when(transports, mass, base, carried, before);
    let outlets = draw(moved, got);
    let after = Held {
        boundaries,
        ledger,
        outlets,
    };
    Booked {
        held: after,
        crossed,
    }
}

// Ground 13 and what the step leaves, of what was found of it
fn complete(
    bed: &[i64],
    depth: &mut [u64],
    discharge: &mut [i64],
    mass: &mut [u64],
    base: &mut [u64],
    carried: &mut [i64],
    x: u64,
    held: Held,
    t: u64,
    f: u64,
    net: &[i64],
    new_depth: &[u64],
    new_discharge: &[i64],
    got: [u64; 32],
) -> StepAnswer
    requires boundaries_value { first_refusal (record_grounds (reach_of bed.now depth.old discharge.old mass.old base.old carried.old x held) held.boundaries) ≡ Ok tt }
    requires step_passes { StepPasses (reach_of bed.now depth.old discharge.old mass.old base.old carried.old x held) t f }
    requires step_found { StepFound (reach_of bed.now depth.old discharge.old mass.old base.old carried.old x held) t f net.now new_depth.now new_discharge.now got }
    ensures { StepCameTo (came bed.now depth.old discharge.old mass.old base.old carried.old x held) t f result depth.new discharge.new mass.new base.new carried.new }
{
    let n = bed.len();
    let transports = !keeps_sums(n, carried, net, new_depth);
    let booked = book(transports, mass, base, carried, held, got, net[0], net[n]);
    let after = booked.held;
    let crossed = booked.crossed;
    if let Err(r) = check_room(after) {
        return refused(r, held);
    }
    transport_when(
        transports,
        depth,
        mass,
        base,
        carried,
        crossed.left_in,
        crossed.right_in,
    );
    write_step(depth, discharge, carried, net, new_depth, new_discharge);
    if held.outlets.count == 0 {
        return StepAnswer {
            refusal: 0,
            held: after,
            transported: transports,
        };
    }
    let old = held.outlets;
    let new = after.outlets;
    take_gains(mass, old, new);
    StepAnswer {
        refusal: 0,
        held: after,
        transported: transports,
    }
}

// Grounds 11 and 12, and the step itself, on a record, a time and a coefficient that stood those before.
fn advance(
    bed: &[i64],
    depth: &mut [u64],
    discharge: &mut [i64],
    mass: &mut [u64],
    base: &mut [u64],
    carried: &mut [i64],
    x: u64,
    held: Held,
    t: u64,
    f: u64,
) -> StepAnswer
    requires boundaries_value { first_refusal (record_grounds (reach_of bed.now depth.old discharge.old mass.old base.old carried.old x held) held.boundaries) ≡ Ok tt }
    requires t_value { (time_fits t ≡ true) × (strickler_fits f ≡ true) }
    ensures { StepCameTo (came bed.now depth.old discharge.old mass.old base.old carried.old x held) t f result depth.new discharge.new mass.new base.new carried.new }
{
    let boundaries = held.boundaries;
    let n = bed.len();
    // no heap: room for the longest reach
    let mut net = [0i64; CELLS_MOST + 1];
    let mut given = [0u64; CELLS_MOST];
    let mut new_depth = [0u64; CELLS_MOST];
    let mut new_discharge = [0i64; CELLS_MOST];
    wants_by_cell(held, &mut given);
    if let Err(r) = sweep(
        t,
        f,
        x,
        bed,
        depth,
        discharge,
        boundaries,
        &mut net,
        &mut given,
        &mut new_depth,
        &mut new_discharge,
    ) {
        return refused(r, held);
    }
    if let Err(r) = check_depths(&new_depth, n) {
        return refused(r, held);
    }
    let got = deal_out(held, &given);
    complete(
        bed,
        depth,
        discharge,
        mass,
        base,
        carried,
        x,
        held,
        t,
        f,
        &net,
        &new_depth,
        &new_discharge,
        got,
    )
}

// One water step of t ms with Strickler's coefficient f, 0 for none.
pub fn step(
    bed: &[i64],
    depth: &mut [u64],
    discharge: &mut [i64],
    mass: &mut [u64],
    base: &mut [u64],
    carried: &mut [i64],
    x: u64,
    held: Held,
    t: u64,
    f: u64,
) -> StepAnswer
    ensures { StepCameTo (came bed.now depth.old discharge.old mass.old base.old carried.old x held) t f result depth.new discharge.new mass.new base.new carried.new }
{
    let boundaries = held.boundaries;
    if let Err(r) = check_record(
        bed, depth, discharge, mass, base, carried, x, held, boundaries,
    ) {
        return refused(r, held);
    }
    if let Err(r) = check_time(t) {
        return refused(r, held);
    }
    if let Err(r) = Refusal::Strickler.unless(strickler_fits(f)) {
        return refused(r, held);
    }
    advance(bed, depth, discharge, mass, base, carried, x, held, t, f)
}
