// The CFL condition: how fast a signal runs at each place of a reach, and the greatest time step that it allows.
#![tactic(auto)]

ghost use Rattle.std.specs.Prelude.{◌≡◌, ◌+◌, ◌≤◌, length, ltb};
ghost use Rattle.flux.specs.Limits.{depth_most, cell_length_least, cell_length_most};
ghost use Rattle.flux.specs.Wave.{wave_speed};
ghost use Rattle.cfl.specs.Cfl.{speed_at, fastest_place};
ghost use Rattle.cfl.specs.Ranges.{FlowColumns, step_for};

use flux::velocity::flow_speed;
use flux::wave::wave_speed;
use numbers::root::SquareRoots;

// Whether v + a(h) is above `least`, told without a root: what v leaves of `least` is below a(h) where its square is below 3gh/2
fn is_above(h: u64, v: u64, least: u64) -> bool
    requires { (h ≤ depth_most) × (least ≤ 16_000) }
    ensures { result ≡ ltb least (v + wave_speed h) }
{
    if least < v {
        return true;
    }
    let rest = least - v;
    1_000_000 * (rest * rest) < 14_709_975 * h
}

// The place of the greatest |u|+a, the highest among equals, and that speed
#[derive(Clone, Copy)]
pub struct Fastest {
    pub place: usize,
    pub speed: u64,
}

// Among all cells and both boundaries, whose speeds are given. From the right to the left, so that a cell is taken only where it is faster than all
// that are passed: a root is taken for those alone, in level water for one.
pub fn fastest_of(depth: &[u64], discharge: &[i64], left: u64, right: u64) -> Fastest
    requires { FlowColumns depth.now discharge.now × ((left ≤ 16_000) × (right ≤ 16_000)) }
    ensures { (result.place ≡ fastest_place (speed_at depth.now discharge.now left right) (length depth.now + 1)) × (result.speed ≡ speed_at depth.now discharge.now left right result.place) }
{
    let n = depth.len();
    let roots = SquareRoots::new();
    let mut place = n + 1;
    let mut speed = right;
    for i in (0..n).rev() {
        let h = depth[i];
        let v = flow_speed(h, discharge[i]);
        if is_above(h, v, speed) {
            speed = v + wave_speed(h, &roots);
            place = i + 1;
        }
    }
    if speed < left {
        return Fastest {
            place: 0,
            speed: left,
        };
    }
    Fastest { place, speed }
}

// The greatest step, ms, that a signal of one speed allows in cells of length x
pub fn longest_step(x: u64, speed: u64) -> u64
    requires { (cell_length_least ≤ x) × (x ≤ cell_length_most) }
    ensures { result ≡ step_for x speed }
{
    if speed == 0 {
        return 1_000;
    }
    (1_000 * x / speed).min(1_000)
}
