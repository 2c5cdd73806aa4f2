// One sweep along the reach: every cell, every boundary and every interface is looked at once, and what a step makes of each cell is set
// down beside the record, which stays as it is.
#![tactic(auto)]

ghost use Rattle.std.specs.Prelude.{◌≡◌, cond, ◌&&◌, ℕ, ◌+◌, ◌-◌, ◌*◌, ◌≤◌, ◌<◌, min, eqb, ltb, pos, ◌+ℤ◌, ◌-ℤ◌, nat_abs, length, get_or};
ghost use Rattle.std.proofs.Math.IntN.{sub_ℕ};
ghost use Rattle.flux.specs.Limits.{depth_most, velocity_most, time_step_most};
ghost use Rattle.flux.specs.Ranges.{Mesh};
ghost use Rattle.friction.specs.Friction.{drag, slowed_by};
ghost use Rattle.friction.specs.Ranges.{strickler_most, conveyance_squared_most};
ghost use Rattle.reach.specs.Grounds.{pass_or};
ghost use Rattle.water.specs.Ranges.{side_of, flow_of, InRange, FlowFits, side_meets, sides_meet, Swept};
ghost use Rattle.flux.specs.Velocity.{velocity};
ghost use Rattle.reach.specs.declared.boundary.BoundaryPlace.TheVariants.{Right};
ghost use Rattle.water.specs.Sides.{boundary_side};
ghost use Rattle.water.specs.Water.{nearest};

use flux::crossing::span_of;
use friction::conveyance_squared;
use friction::table::FourThirds;
use numbers::root::SquareRoots;
use numbers::signed::joined;
use reach::boundary::{Boundary, BoundaryPlace};
use reach::refusal::Refusal;
use water::sides::{Exchange, SideState};
use water::{boundary_state, cell_state, discharge_after, exchange_between, exchange_level};

// |u| of a side
fn speed_of(c: SideState) -> u64
    ensures { (result ≡ nat_abs (side_of c).velocity) × (result ≤ velocity_most) }
{
    c.right + c.left
}

// Whether CFL, kept so far, is kept at the side c too
fn still_meets(met: bool, t: u64, x: u64, c: SideState) -> bool
    requires { Mesh t x }
    ensures { result ≡ (met && side_meets t x (side_of c)) }
{
    met && t * (speed_of(c) + c.wave) <= 1_000 * x
}

// Cell i, or the right boundary beside the cell before it
fn right_side(
    bed: &[i64],
    depth: &[u64],
    discharge: &[i64],
    boundary: Boundary,
    before: SideState,
    i: usize,
    roots: &SquareRoots,
) -> SideState
    requires depth_len { (length depth.now ≡ length bed.now) × (length discharge.now ≡ length bed.now) }
    requires in_range { i < length bed.now → InRange (get_or bed.now i (pos 0)) (get_or depth.now i 0) (get_or discharge.now i (pos 0)) }
    requires boundary_fits { (boundary.depth ≤ depth_most) × (nat_abs boundary.discharge ≤ velocity_most * boundary.depth) }
    ensures { side_of result ≡ cond (ltb i (length bed.now)) (record { bed = get_or bed.now i (pos 0); depth = get_or depth.now i 0; velocity = velocity (get_or depth.now i 0) (get_or discharge.now i (pos 0)) }) (boundary_side Right boundary (side_of before)) }
{
    if i < bed.len() {
        return cell_state(bed[i], depth[i], discharge[i], roots);
    }
    boundary_state(BoundaryPlace::Right, boundary, before, roots)
}

// N of a crossing
fn net_of(c: Exchange) -> i64
    ensures { result ≡ sub_ℕ c.rightward c.leftward }
{
    joined(c.rightward, c.leftward)
}

// What a cell gives of what its outlets want: no more than its own two outgoing W leave of its depth
fn granted_of(h: u64, l: Exchange, r: Exchange, wanted: u64) -> u64
    ensures { result ≡ min (h - (l.leftward + r.rightward)) wanted }
{
    if wanted == 0 {
        return 0;
    }
    h.saturating_sub(l.leftward + r.rightward).min(wanted)
}

// The depth of a cell after the step, by what crosses at its left and at its right and what it gives. CFL keeps the difference from being cut off
// at 0.
fn depth_after(h: u64, l: Exchange, r: Exchange, given: u64) -> u64
    requires { (h ≤ depth_most) × (given ≤ h) }
    ensures { result ≡ h + l.rightward + r.leftward - (l.leftward + r.rightward + given) }
{
    (h + l.rightward + r.leftward).saturating_sub(l.leftward + r.rightward + given)
}

// Its discharge after friction of its bed, over the depth that it then has; c is the cell before the step and d is D of its new depth
fn momentum_after(
    f: u64,
    d: u64,
    t: u64,
    c: SideState,
    q: i64,
    l: Exchange,
    r: Exchange,
    depth: u64,
) -> i64
    requires d_le_conveyance_squared_most { (d ≤ conveyance_squared_most) × (t ≤ time_step_most) }
    requires q_bound { (nat_abs q ≤ velocity_most * depth_most) × (depth ≤ 2_000_000_000) }
    ensures { result ≡ nearest (velocity_most * depth) (slowed_by f d (drag t (nat_abs (side_of c).velocity)) (q +ℤ pos (l.momentum + l.lost_right) -ℤ pos (r.momentum + r.lost_left))) }
{
    if depth == 0 {
        return 0;
    }
    discharge_after(
        f,
        d,
        t,
        speed_of(c),
        q,
        l.momentum + l.lost_right,
        r.momentum + r.lost_left,
        depth,
    )
}

// Whether no water stands at either side
fn both_dry(l: SideState, r: SideState) -> bool
    ensures { result ≡ eqb (l.depth + r.depth) 0 }
{
    l.depth + r.depth == 0
}

// Whether the side at a cell's right is dry too, where `dry` says that the cell and the side at its left are: nothing crosses there then, and the cell stays as it is.
fn stays_dry(dry: bool, next: SideState) -> bool
    ensures { result ≡ (dry && eqb next.depth 0) }
{
    dry && next.depth == 0
}

// Ground 11, CFL at every side; N of each interface, what each cell gives, and its depth and discharge after the step. `given` comes with what is
// wanted of each cell.
pub fn sweep(
    t: u64,
    f: u64,
    x: u64,
    bed: &[i64],
    depth: &[u64],
    discharge: &[i64],
    boundaries: [Boundary; 2],
    net: &mut [i64],
    given: &mut [u64],
    new_depth: &mut [u64],
    new_discharge: &mut [i64],
) -> Result<(), Refusal>
    requires mesh { Mesh t x × FlowFits (flow_of bed.now depth.now discharge.now x boundaries) }
    requires bed_in_bounds { (length bed.now < length net.old) × ((length bed.now ≤ length given.old) × ((length bed.now ≤ length new_depth.old) × (length bed.now ≤ length new_discharge.old))) }
    requires f_le_strickler_most { f ≤ strickler_most }
    ensures value { result ≡ pass_or Refusal.Cfl (sides_meet (flow_of bed.now depth.now discharge.now x boundaries) t) }
    ensures swept { Swept (flow_of bed.now depth.now discharge.now x boundaries) t f given.old net.new given.new new_depth.new new_discharge.new }
    ensures by_index { (i : ℕ) → length bed.now ≤ i → get_or given.new i 0 ≡ get_or given.old i 0 }
{
    let n = bed.len();
    let roots = SquareRoots::new();
    let mut cell = cell_state(bed[0], depth[0], discharge[0], &roots);
    let beyond = boundary_state(BoundaryPlace::Left, boundaries[0], cell, &roots);
    let mut met = still_meets(still_meets(true, t, x, beyond), t, x, cell);
    let span = span_of(x);
    let mut left = exchange_level(t, x, span, beyond, cell);
    net[0] = net_of(left);
    let powers = FourThirds::new();
    let mut dry = false;
    for i in 0..n {
        let next = right_side(bed, depth, discharge, boundaries[1], cell, i + 1, &roots);
        if stays_dry(dry, next) {
            net[i + 1] = 0;
            given[i] = 0;
            new_depth[i] = 0;
            new_discharge[i] = 0;
            cell = next;
            continue;
        }
        dry = both_dry(cell, next);
        let right = exchange_between(t, x, span, cell, next, &roots);
        let taken = granted_of(depth[i], left, right, given[i]);
        let deep = depth_after(depth[i], left, right, taken);
        met = still_meets(met, t, x, next);
        net[i + 1] = net_of(right);
        given[i] = taken;
        new_depth[i] = deep;
        let d = conveyance_squared(f, deep, &powers);
        new_discharge[i] = momentum_after(f, d, t, cell, discharge[i], left, right, deep);
        cell = next;
        left = right;
    }
    Refusal::Cfl.unless(met)
}
