// The greatest time step that a record allows (document 01, 'The greatest step'; document 02, point 2).
#![tactic(auto)]

ghost use Rattle.std.specs.Prelude.{◌≡◌, ◌*◌, ◌≤◌, nat_abs};
ghost use Rattle.flux.specs.Limits.{depth_most, velocity_most};
ghost use Rattle.water.specs.Ranges.{side_of};
ghost use Rattle.reach.specs.Reach.{came};
ghost use Rattle.reach.specs.Refusals.{number};
ghost use Rattle.timestep.specs.GreatestStep.{boundary_speed, refused_with, greatest};

use cfl::{fastest_of, longest_step};
use numbers::root::SquareRoots;
use reach::boundary::{Boundary, BoundaryPlace, FED};
use reach::check_record;
use reach::held::Held;
use reach::refusal::Refusal;
use water::sides::SideState;
use water::{boundary_state, cell_state};

// 0 or the number of the refusal; the boundaries and the ledger as they came; the greatest time step, ms; the place of the greatest
// |u|+a, the highest among equals: 0 the left boundary, 1..n the cells, n+1 the right boundary
#[repr(C)]
#[derive(Clone, Copy)]
pub struct GreatestAnswer {
    pub refusal: u32,
    pub held: Held,
    pub time: u64,
    pub place: usize,
}

// |u|+a of a boundary at the place p beside the cell c; one that is not fed counts as 0
pub fn boundary_speed(p: BoundaryPlace, e: Boundary, c: SideState, roots: &SquareRoots) -> u64
    requires { (e.depth ≤ depth_most) × (nat_abs e.discharge ≤ velocity_most * e.depth) }
    ensures { result ≡ boundary_speed p e (side_of c) }
{
    if e.kind != FED {
        return 0;
    }
    let side = boundary_state(p, e, c, roots);
    side.right + side.left + side.wave
}

fn refused(r: Refusal, held: Held) -> GreatestAnswer
    ensures { result ≡ refused_with (number r) held }
{
    GreatestAnswer {
        refusal: r.into(),
        held,
        time: 0,
        place: 0,
    }
}

pub fn greatest_step(
    bed: &[i64],
    depth: &[u64],
    discharge: &[i64],
    mass: &[u64],
    base: &[u64],
    carried: &[i64],
    x: u64,
    held: Held,
) -> GreatestAnswer
    ensures { result ≡ greatest (came bed.now depth.now discharge.now mass.now base.now carried.now x held) }
{
    let boundaries = held.boundaries;
    if let Err(r) = check_record(
        bed, depth, discharge, mass, base, carried, x, held, boundaries,
    ) {
        return refused(r, held);
    }
    let n = bed.len();
    let roots = SquareRoots::new();
    let first = cell_state(bed[0], depth[0], discharge[0], &roots);
    let last = cell_state(bed[n - 1], depth[n - 1], discharge[n - 1], &roots);
    let left = boundary_speed(BoundaryPlace::Left, boundaries[0], first, &roots);
    let right = boundary_speed(BoundaryPlace::Right, boundaries[1], last, &roots);
    let f = fastest_of(depth, discharge, left, right);
    GreatestAnswer {
        refusal: 0,
        held,
        time: longest_step(x, f.speed),
        place: f.place,
    }
}
