// Carried water: ground 8.
ghost use Rattle.std.specs.Prelude.{◌≡◌, true, [], ◌∷◌, ◌≤◌, ◌<◌, pos, nat_abs, length, get_or};
ghost use Rattle.numbers.specs.Index.{all_of};
ghost use Rattle.flux.specs.Limits.{depth_most};
ghost use Rattle.reach.specs.Limits.{carried_most};
ghost use Rattle.reach.specs.Grounds.{carried_fits, carried_cells_fit, shut_fits, carried_fit, outlets_fit, pass_or};
ghost use Rattle.reach.specs.Ranges.{CarriedColumns, CarriedLengths, alone};
ghost use Rattle.reach.specs.Parts.{drawn_from};

use super::boundary::WALL;
use super::cells::CELLS_MOST;
use super::outlets::drawn_by_cell;
use super::refusal::Refusal;
use numbers::signed::within;
use outlet::Outlets;

// The size of l is looked at before, and that of r follows: r is at most what is kept of b, and it is a level, not below 0, less h. That no more left than the base depth is
// tested of each side by itself: what both and the outlets took leaves h, which is not below 0.
pub fn carried_fits(h: u64, b: u64, l: i64, r: i64, drawn: u64) -> bool
    requires h_le_depth_most { (h ≤ depth_most) × ((b ≤ depth_most) × (drawn ≤ 1_000_000_000)) }
    requires l_bound { nat_abs l ≤ carried_most }
    ensures { result ≡ carried_fits h b l r (drawn ∷ []) }
{
    let base = b as i64;
    let kept = base - drawn as i64;
    if kept < 0 {
        return false;
    }
    if kept < r {
        return false;
    }
    let level = kept + l;
    if level < 0 {
        return false;
    }
    level - h as i64 == r
}

// At a wall nothing is carried.
#[tactic(auto, unfolding(crate::specs::Grounds::shut_fits))]
fn shut_fits(kind: u32, c: i64) -> bool
    ensures { result ≡ shut_fits kind c }
{
    kind != WALL || c == 0
}

// Both boundaries of n cells
#[tactic(auto, unfolding(numbers::specs::Index::all_of))]
pub fn walls_fit(carried: &[i64], n: usize, left_kind: u32, right_kind: u32) -> bool
    requires { n < length carried.now }
    ensures { result ≡ all_of (shut_fits left_kind (get_or carried.now 0 (pos 0)) ∷ shut_fits right_kind (get_or carried.now n (pos 0)) ∷ []) }
{
    shut_fits(left_kind, carried[0]) && shut_fits(right_kind, carried[n])
}

fn check_carried_cells(
    depth: &[u64],
    base: &[u64],
    carried: &[i64],
    drawn: &[u64],
) -> Result<(), Refusal>
    requires { CarriedLengths depth.now base.now carried.now drawn.now }
    ensures { result ≡ pass_or Refusal.Carried (carried_cells_fit depth.now base.now carried.now (alone drawn.now)) }
{
    if !within(carried[0], 4_000_000) {
        return Err(Refusal::Carried);
    }
    for i in 0..depth.len() {
        if !carried_fits(depth[i], base[i], carried[i], carried[i + 1], drawn[i]) {
            return Err(Refusal::Carried);
        }
    }
    Ok(())
}

// Ground 8, of a list of outlets that stood ground 16.
pub fn check_carried(
    depth: &[u64],
    base: &[u64],
    carried: &[i64],
    outlets: Outlets,
    left_kind: u32,
    right_kind: u32,
) -> Result<(), Refusal>
    requires carried_columns { CarriedColumns depth.now base.now carried.now }
    requires outlets_value { outlets_fit (length depth.now) outlets ≡ true }
    ensures { result ≡ pass_or Refusal.Carried (carried_fit depth.now base.now carried.now (drawn_from outlets) left_kind right_kind) }
{
    // no heap: room for the longest reach
    let mut drawn = [0u64; CELLS_MOST];
    drawn_by_cell(outlets, &mut drawn);
    check_carried_cells(depth, base, carried, &drawn)?;
    Refusal::Carried.unless(walls_fit(carried, depth.len(), left_kind, right_kind))
}
