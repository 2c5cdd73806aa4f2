// Wave speed.
ghost use Rattle.std.specs.Prelude.{◌≡◌, ◌≤◌};
ghost use Rattle.flux.specs.Limits.{depth_most};
ghost use Rattle.flux.specs.Wave.{wave_speed};

use numbers::root::SquareRoots;

// a(h), mm/s, of a depth in micrometres
pub fn wave_speed(h: u64, roots: &SquareRoots) -> u64
    requires { h ≤ depth_most }
    ensures { result ≡ wave_speed h }
{
    if h == 0 {
        return 0;
    }
    roots.square_root_ceil((14_709_975 * h + 999_999) / 1_000_000)
}
