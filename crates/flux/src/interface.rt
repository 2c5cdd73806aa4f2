// What an interface takes of a depth.
ghost use Rattle.std.specs.Prelude.{◌≡◌, ◌≤◌, nat_abs};
ghost use Rattle.flux.specs.Limits.{bed_most, depth_most};
ghost use Rattle.flux.specs.Wave.{wave_speed};
ghost use Rattle.flux.specs.Interface.{reduced_depth};

use super::wave::wave_speed;
use numbers::root::SquareRoots;
use numbers::signed::right_part;

// h*: the depth h over the bed z, less what the bed beside it stands higher
pub fn reduced_depth(h: u64, z: i64, beside: i64) -> u64
    requires { (nat_abs z ≤ bed_most) × (nat_abs beside ≤ bed_most) }
    ensures { result ≡ reduced_depth h z beside }
{
    h.saturating_sub(right_part(beside - z))
}

// a(h*), where a is the wave speed of the whole depth h: no search where nothing is taken off
pub fn reduced_wave(reduced: u64, h: u64, a: u64, roots: &SquareRoots) -> u64
    requires { (reduced ≤ depth_most) × (a ≡ wave_speed h) }
    ensures { result ≡ wave_speed reduced }
{
    if reduced == h {
        return a;
    }
    wave_speed(reduced, roots)
}
