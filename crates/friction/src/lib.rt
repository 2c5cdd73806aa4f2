// Friction of the bed (document 02, point 4): what Strickler's term leaves of a discharge.
#![tactic(auto)]

pub mod table;

ghost use Rattle.std.specs.Prelude.{◌≡◌, ◌+◌, ◌*◌, ◌/◌, ◌≤◌, ◌<◌, min, nat_abs};
ghost use Rattle.flux.specs.Limits.{velocity_most, time_step_most};
ghost use Rattle.friction.specs.Friction.{strickler_fits, centimetres, table_most, conveyance_squared, drag, slowed_by};
ghost use Rattle.friction.specs.Ranges.{strickler_most, conveyance_squared_most, drag_most, pushed_most};

use numbers::signed::{joined, left_part, right_part};
use table::FourThirds;

// Whether a coefficient is allowed: 0, or 10 to 90
pub fn strickler_fits(f: u64) -> bool
    ensures { result ≡ strickler_fits f }
{
    f == 0 || 10 <= f && f <= 90
}

// D of a depth h
pub fn conveyance_squared(f: u64, h: u64, powers: &FourThirds) -> u64
    requires { f ≤ strickler_most }
    ensures { (result ≡ conveyance_squared f (min (centimetres h) table_most)) × (result ≤ conveyance_squared_most) }
{
    if f == 0 {
        return 0;
    }
    f * f * powers.root_of(h / 10_000)
}

// E of a speed v
fn drag_of(t: u64, v: u64) -> u64
    requires { (t ≤ time_step_most) × (v ≤ velocity_most) }
    ensures { (result ≡ drag t v) × (result ≤ drag_most) }
{
    45_518 * t * v / 1_000_000
}

// floor(s·d / (d + e)), as s less what is lost of it, rounded up: s·d would pass 64 bits, s·e does not
fn kept(s: u64, d: u64, e: u64) -> u64
    requires { (s ≤ pushed_most) × ((0 < d) × ((d ≤ conveyance_squared_most) × (e ≤ drag_most))) }
    ensures { result ≡ s * d / (d + e) }
{
    let whole = d + e;
    s - (s * e + (whole - 1)) / whole
}

// The discharge p after friction, by D and the speed v before. Without friction E is not worked out.
pub fn slow(f: u64, d: u64, t: u64, v: u64, p: i64) -> i64
    requires d_le_conveyance_squared_most { (d ≤ conveyance_squared_most) × ((t ≤ time_step_most) × (v ≤ velocity_most)) }
    requires p_bound { nat_abs p ≤ pushed_most }
    ensures { result ≡ slowed_by f d (drag t v) p }
{
    if f == 0 {
        return p;
    }
    if d == 0 {
        return 0i64;
    }
    let e = drag_of(t, v);
    let right = right_part(p);
    if right == 0 {
        return joined(0, kept(left_part(p), d, e));
    }
    joined(kept(right, d, e), 0)
}
