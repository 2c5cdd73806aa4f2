// Inner functions, the driver and the program's text as C functions, for the comparison tests. Not part of the product.
#![tactic(auto)]

ghost use Rattle.std.specs.Prelude.{◌≡◌, ◌*◌, ◌≤◌, nat_abs, length};
ghost use Rattle.std.proofs.Math.IntN.{sub_ℕ};
ghost use Rattle.flux.specs.Limits.{depth_most, velocity_most, bed_most};
ghost use Rattle.flux.specs.Wave.{wave_speed};
ghost use Rattle.flux.specs.Velocity.{velocity};
ghost use Rattle.flux.specs.Crossing.{upper, lower, water_flux, momentum_flux, still_thrust};
ghost use Rattle.flux.specs.Interface.{reduced_depth};
ghost use Rattle.flux.specs.Ranges.{Mesh, wave_most};
ghost use Rattle.reach.specs.Reach.{came};
ghost use Rattle.sheet.specs.Opening.{none_held};
ghost use Rattle.driver.specs.Replay.{ReplayCameTo};
ghost use Rattle.text.specs.Text.{Put};
ghost use Rattle.program.specs.Program.{program_text};

use driver::{Replayed, replay};
use flux::crossing::{fluxes_of, rightgoing_of, span_of, still_thrust};
use flux::interface::reduced_depth;
use flux::velocity::velocity_parts;
use flux::wave::wave_speed;
use numbers::root::SquareRoots;
use numbers::signed::{joined, left_part, right_part};
use outlet::Outlets;
use program::program;

#[unsafe(no_mangle)]
pub extern "C" fn harness_wave_speed(h: u64) -> u64
    requires { h ≤ depth_most }
    ensures { result ≡ wave_speed h }
{
    let roots = SquareRoots::new();
    wave_speed(h, &roots)
}

// W, Q and S of one side of an interface
#[repr(C)]
#[derive(Clone, Copy)]
pub struct Side {
    pub water: u64,
    pub momentum: u64,
    pub still: u64,
}

#[unsafe(no_mangle)]
pub extern "C" fn harness_side(t: u64, x: u64, h: u64, u: i64) -> Side
    requires { Mesh t x × ((h ≤ depth_most) × (nat_abs u ≤ velocity_most)) }
    ensures { (result.water ≡ water_flux t x h u) × ((result.momentum ≡ momentum_flux t x h u) × (result.still ≡ still_thrust t x h)) }
{
    let roots = SquareRoots::new();
    let a = wave_speed(h, &roots);
    let span = span_of(x);
    let c = fluxes_of(t, x, span, h, a, right_part(u), left_part(u));
    Side {
        water: c.water,
        momentum: c.momentum,
        still: still_thrust(t, x, span, h, a),
    }
}

// A and B of one side of an interface
#[repr(C)]
#[derive(Clone, Copy)]
pub struct Rightgoing {
    pub upper: u64,
    pub lower: u64,
}

#[unsafe(no_mangle)]
pub extern "C" fn harness_rightgoing(a: u64, right: u64, left: u64) -> Rightgoing
    requires { (a ≤ wave_most) × ((right ≤ velocity_most) × (left ≤ velocity_most)) }
    ensures { (result.upper ≡ upper a (sub_ℕ right left)) × (result.lower ≡ lower a (sub_ℕ right left)) }
{
    let s = rightgoing_of(a, right, left);
    Rightgoing {
        upper: s.upper,
        lower: s.lower,
    }
}

#[unsafe(no_mangle)]
pub extern "C" fn harness_velocity(h: u64, q: i64) -> i64
    requires { nat_abs q ≤ velocity_most * depth_most }
    ensures { result ≡ velocity h q }
{
    let p = velocity_parts(h, q);
    joined(p.right, p.left)
}

#[unsafe(no_mangle)]
pub extern "C" fn harness_reduced_depth(h: u64, z: i64, beside: i64) -> u64
    requires { (nat_abs z ≤ bed_most) × (nat_abs beside ≤ bed_most) }
    ensures { result ≡ reduced_depth h z beside }
{
    reduced_depth(h, z, beside)
}

#[unsafe(no_mangle)]
pub extern "C" fn harness_replay(
    sheet: &[u8],
    words: &[u64],
    sheets: &[u8],
    bed: &mut [i64],
    depth: &mut [u64],
    discharge: &mut [i64],
    mass: &mut [u64],
    base: &mut [u64],
    carried: &mut [i64],
    outlets: Outlets,
    out: &mut [u8],
    answers: &mut [u64],
) -> Replayed
    ensures { ReplayCameTo sheet.now words.now sheets.now (came bed.old depth.old discharge.old mass.old base.old carried.old 0 (none_held outlets)) out.old answers.old result bed.new depth.new discharge.new mass.new base.new carried.new out.new answers.new }
{
    replay(
        sheet, words, sheets, bed, depth, discharge, mass, base, carried, outlets, out, answers,
    )
}

// The program's text at the start of `out`, and its length
#[unsafe(no_mangle)]
pub extern "C" fn harness_program(input: &[u8], out: &mut [u8]) -> usize
    requires { 65_536 ≤ length out.old }
    ensures value { (result ≡ length (program_text input.now)) × (result ≤ 65_536) }
    ensures put { Put out.old 0 (program_text input.now) out.new }
{
    program(input, out)
}
