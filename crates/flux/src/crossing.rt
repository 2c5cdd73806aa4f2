// Crossing amounts: W, Q and S of one side of an interface.
ghost use Rattle.std.specs.Prelude.{◌≡◌, ◌*◌, ◌≤◌};
ghost use Rattle.std.proofs.Math.IntN.{sub_ℕ};
ghost use Rattle.flux.specs.Limits.{depth_most, velocity_most, cell_length_least, cell_length_most};
ghost use Rattle.flux.specs.Crossing.{upper, lower, water_of, second_moment, momentum_of, water_flux, momentum_flux, still_thrust};
ghost use Rattle.flux.specs.Ranges.{Mesh, SpanOf, Flow, Spectrum, moment_most, wave_most};

use numbers::quotient::Divisor;
use numbers::signed::{joined, right_part};

// A and B: of the speeds of a cell, those that go rightwards are lower..upper
#[derive(Clone, Copy)]
pub struct Rightgoing {
    pub upper: u64,
    pub lower: u64,
}

// max(u+a, 0) and max(u−a, 0) of the velocity u = right − left, with no fork here nor in what is called
pub fn rightgoing_of(a: u64, right: u64, left: u64) -> Rightgoing
    requires { (a ≤ wave_most) × ((right ≤ velocity_most) × (left ≤ velocity_most)) }
    ensures { (result.upper ≡ upper a (sub_ℕ right left)) × (result.lower ≡ lower a (sub_ℕ right left)) }
{
    let velocity = joined(right, left);
    let wave = a as i64;
    Rightgoing {
        upper: right_part(velocity + wave),
        lower: right_part(velocity - wave),
    }
}

// 1,000·X as a divisor, once for many fluxes
pub fn span_of(x: u64) -> Divisor
    requires { (cell_length_least ≤ x) × (x ≤ cell_length_most) }
    ensures { SpanOf x result }
{
    Divisor::new(1_000 * x)
}

// W of a wet depth
fn water_of(t: u64, x: u64, h: u64, a: u64, upper: u64, lower: u64) -> u64
    requires { Mesh t x × ((h ≤ depth_most) × Spectrum a upper lower) }
    ensures { result ≡ water_of t x h a upper lower }
{
    h * t * (upper * upper - lower * lower) / (4_000 * a * x)
}

// K of a wet depth
fn second_moment(a: u64, upper: u64, lower: u64) -> u64
    requires { Spectrum a upper lower }
    ensures { result ≡ second_moment a upper lower }
{
    (upper * upper * upper - lower * lower * lower) / (6 * a)
}

// Q of a given K. What is divided by is `span`; x is named for the promise alone.
fn momentum_of(t: u64, x: u64, span: Divisor, h: u64, k: u64) -> u64
    requires { Mesh t x × (SpanOf x span × ((h ≤ depth_most) × (k ≤ moment_most))) }
    ensures { result ≡ momentum_of t x h k }
{
    span.divide(h * t * k)
}

// W and Q of one side
#[derive(Clone, Copy, Default)]
pub struct Fluxes {
    pub water: u64,
    pub momentum: u64,
}

// W(h,u) and Q(h,u) of a depth h, its wave speed a and the velocity u = right − left
pub fn fluxes_of(t: u64, x: u64, span: Divisor, h: u64, a: u64, right: u64, left: u64) -> Fluxes
    requires { Mesh t x × (SpanOf x span × Flow h a right left) }
    ensures { (result.water ≡ water_flux t x h (sub_ℕ right left)) × (result.momentum ≡ momentum_flux t x h (sub_ℕ right left)) }
{
    if h == 0 {
        return Fluxes::default();
    }
    let s = rightgoing_of(a, right, left);
    Fluxes {
        water: water_of(t, x, h, a, s.upper, s.lower),
        momentum: momentum_of(t, x, span, h, second_moment(a, s.upper, s.lower)),
    }
}

// S(h) of a depth h and its wave speed a. At rest A is a and B is 0, so K is a²/6.
pub fn still_thrust(t: u64, x: u64, span: Divisor, h: u64, a: u64) -> u64
    requires { Mesh t x × (SpanOf x span × Flow h a 0 0) }
    ensures { result ≡ still_thrust t x h }
{
    2 * momentum_of(t, x, span, h, a * a / 6)
}
