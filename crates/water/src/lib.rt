// The water of a step (document 01, 'A water step'): what a cell or a boundary shows at an interface, and what crosses there.
#![tactic(auto)]

pub mod sides;

ghost use Rattle.std.specs.Prelude.{◌≡◌, ◌*◌, ◌-◌, ◌≤◌, ◌<◌, pos, ◌+ℤ◌, ◌-ℤ◌, nat_abs};
ghost use Rattle.flux.specs.Limits.{bed_most, depth_most, velocity_most, time_step_most};
ghost use Rattle.flux.specs.Crossing.{still_thrust};
ghost use Rattle.flux.specs.Ranges.{Mesh, SpanOf, Flow};
ghost use Rattle.flux.specs.Velocity.{velocity};
ghost use Rattle.friction.specs.Friction.{drag, slowed_by};
ghost use Rattle.friction.specs.Ranges.{conveyance_squared_most, pushed_most};
ghost use Rattle.water.specs.Fits.{thrust_most};
ghost use Rattle.water.specs.Ranges.{side_of, ExchangeOf};
ghost use Rattle.water.specs.Sides.{boundary_side};
ghost use Rattle.water.specs.Water.{nearest};

pub use crate::sides::{Exchange, SideState};
use flux::crossing::{fluxes_of, still_thrust};
use flux::interface::{reduced_depth, reduced_wave};
use flux::velocity::velocity_parts;
use flux::wave::wave_speed;
use friction::slow;
use numbers::quotient::Divisor;
use numbers::root::SquareRoots;
use reach::boundary::{Boundary, BoundaryPlace, OPEN, WALL};

pub fn cell_state(z: i64, h: u64, q: i64, roots: &SquareRoots) -> SideState
    requires { (nat_abs z ≤ bed_most) × ((h ≤ depth_most) × (nat_abs q ≤ velocity_most * h)) }
    ensures { side_of result ≡ record { bed = z; depth = h; velocity = velocity h q } }
{
    let u = velocity_parts(h, q);
    SideState {
        bed: z,
        depth: h,
        wave: wave_speed(h, roots),
        right: u.right,
        left: u.left,
    }
}

// What a boundary at the place p shows beside the cell c
pub fn boundary_state(p: BoundaryPlace, e: Boundary, c: SideState, roots: &SquareRoots) -> SideState
    requires { (e.depth ≤ depth_most) × (nat_abs e.discharge ≤ velocity_most * e.depth) }
    ensures { side_of result ≡ boundary_side p e (side_of c) }
{
    if e.kind == WALL {
        return SideState {
            bed: c.bed,
            depth: c.depth,
            wave: c.wave,
            right: c.left,
            left: c.right,
        };
    }
    if e.kind == OPEN {
        return c;
    }
    cell_state(c.bed, e.depth, e.discharge, roots)
}

// S of the whole depth less S of the reduced depth: no quotient where nothing is taken off
fn thrust_lost(t: u64, x: u64, span: Divisor, h: u64, a: u64, reduced: u64, reduced_a: u64) -> u64
    requires mesh { Mesh t x × SpanOf x span }
    requires flow { Flow h a 0 0 × (Flow reduced reduced_a 0 0 × (reduced ≤ h)) }
    ensures { result ≡ still_thrust t x h - still_thrust t x reduced }
{
    if reduced == h {
        return 0;
    }
    still_thrust(t, x, span, h, a) - still_thrust(t, x, span, reduced, reduced_a)
}

// What crosses between l and r
pub fn exchange_between(
    t: u64,
    x: u64,
    span: Divisor,
    l: SideState,
    r: SideState,
    roots: &SquareRoots,
) -> Exchange
    requires mesh { Mesh t x }
    requires span_of { SpanOf x span }
    ensures { ExchangeOf t x (side_of l) (side_of r) result.rightward result.leftward result.momentum result.lost_left result.lost_right }
{
    if l.depth + r.depth == 0 {
        return Exchange {
            rightward: 0,
            leftward: 0,
            momentum: 0,
            lost_left: 0,
            lost_right: 0,
        };
    }
    let hl = reduced_depth(l.depth, l.bed, r.bed);
    let hr = reduced_depth(r.depth, r.bed, l.bed);
    let al = reduced_wave(hl, l.depth, l.wave, roots);
    let ar = reduced_wave(hr, r.depth, r.wave, roots);
    let a = fluxes_of(t, x, span, hl, al, l.right, l.left);
    // turned round: what the right side sends leftwards is what a mirrored reach would send rightwards
    let b = fluxes_of(t, x, span, hr, ar, r.left, r.right);
    Exchange {
        rightward: a.water,
        leftward: b.water,
        momentum: a.momentum + b.momentum,
        lost_left: thrust_lost(t, x, span, l.depth, l.wave, hl, al),
        lost_right: thrust_lost(t, x, span, r.depth, r.wave, hr, ar),
    }
}

// The same between two sides at one bed level, as a boundary and its cell are: no depth is reduced there, and nothing lost
// (a function of its own: called from one place alone, the sweep's loop, `exchange_between` is compiled into it, which paid 1/14 of a step when it was measured)
pub fn exchange_level(t: u64, x: u64, span: Divisor, l: SideState, r: SideState) -> Exchange
    requires mesh { Mesh t x }
    requires span_of { SpanOf x span × (l.bed ≡ r.bed) }
    ensures { ExchangeOf t x (side_of l) (side_of r) result.rightward result.leftward result.momentum result.lost_left result.lost_right }
{
    let a = fluxes_of(t, x, span, l.depth, l.wave, l.right, l.left);
    let b = fluxes_of(t, x, span, r.depth, r.wave, r.left, r.right);
    Exchange {
        rightward: a.water,
        leftward: b.water,
        momentum: a.momentum + b.momentum,
        lost_left: 0,
        lost_right: 0,
    }
}

// z, moved to the nearest value in −most..most
fn nearest_to(z: i64, most: u64) -> i64
    requires { most < 9_223_372_036_854_775_808 }
    ensures { result ≡ nearest most z }
{
    let end = most as i64;
    z.clamp(-end, end)
}

// q with what is gained and lost of it
fn pushed_by(q: i64, gained: u64, lost: u64) -> i64
    requires { (nat_abs q ≤ velocity_most * depth_most) × ((gained ≤ 2 * thrust_most) × (lost ≤ 2 * thrust_most)) }
    ensures { (result ≡ q +ℤ pos gained -ℤ pos lost) × (nat_abs result ≤ pushed_most) }
{
    q + gained as i64 - lost as i64
}

// q with what is gained and lost of it, after friction by D and the speed v before, moved to the range of a depth h
pub fn discharge_after(
    f: u64,
    d: u64,
    t: u64,
    v: u64,
    q: i64,
    gained: u64,
    lost: u64,
    h: u64,
) -> i64
    requires d_le_conveyance_squared_most { (d ≤ conveyance_squared_most) × ((t ≤ time_step_most) × (v ≤ velocity_most)) }
    requires q_bound { (nat_abs q ≤ velocity_most * depth_most) × ((gained ≤ 2 * thrust_most) × ((lost ≤ 2 * thrust_most) × (h ≤ 2_000_000_000))) }
    ensures { result ≡ nearest (velocity_most * h) (slowed_by f d (drag t v) (q +ℤ pos gained -ℤ pos lost)) }
{
    nearest_to(slow(f, d, t, v, pushed_by(q, gained, lost)), 8_000 * h)
}
