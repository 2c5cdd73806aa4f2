// Mass moved along the columns of a reach, in place (document 01, 'Settling'), and to its outlets (document 02, point 1).
#![tactic(auto)]

pub mod outlets;

ghost use Rattle.std.specs.Prelude.{◌≡◌, [], ◌∷◌, ◌+◌, ◌-◌, ◌*◌, ◌/◌, ◌≤◌, ◌<◌, length, get_or};
ghost use Rattle.numbers.specs.Shares.{shares, rest};
ghost use Rattle.reach.specs.Ranges.{undrawn};
ghost use Rattle.mass.specs.Transport.{mass_columns, cell_shares, cell_outflow};
ghost use Rattle.mass.specs.Ranges.{Giving, ReadyAt, Ready, mass_most, moved_mass};

use numbers::signed::{left_part, right_part};

// floor(m·(P+p)/b), given floor(m·P/b). Most interfaces carry water one way only, and a quotient is dear: none is taken for an empty
// part.
pub fn floor_after(m: u64, b: u64, before: u64, part: u64, floor: u64) -> u64
    requires { Giving m b (before + part) × (floor ≡ m * before / b) }
    ensures { result ≡ m * (before + part) / b }
{
    if part == 0 {
        return floor;
    }
    m * (before + part) / b
}

// What leaves a cell over its right and over its left, and what is left then: its outlets' shares come after these two
#[derive(Clone, Copy)]
pub struct Shares {
    pub right: u64,
    pub left: u64,
    pub rest: u64,
}

// The shares of a cell's mass by running floors, not floored singly: what the floors cut off stays in the cell, or goes with the last
// water.
fn shares_of(m: u64, b: u64, right: u64, left: u64) -> Shares
    requires { Giving m b (right + left) }
    ensures left_value { result.right ∷ result.left ∷ [] ≡ shares m b 0 (right ∷ left ∷ []) }
    ensures rest_value { result.rest ≡ rest m b (right + left) }
{
    let first = floor_after(m, b, 0, right, 0);
    let second = floor_after(m, b, right, left, first);
    Shares {
        right: first,
        left: second - first,
        rest: m - second,
    }
}

// The shares of cell i, as of one that has no outlet
pub fn shares_at(mass: &[u64], base: &[u64], carried: &[i64], i: usize) -> Shares
    requires ready_at { ReadyAt (mass_columns mass.now base.now carried.now undrawn 0 0) i }
    requires i_in_bounds { i < length mass.now }
    ensures left_value { result.right ∷ result.left ∷ [] ≡ cell_shares (mass_columns mass.now base.now carried.now undrawn 0 0) i }
    ensures rest_value { result.rest ≡ rest (get_or mass.now i 0) (get_or base.now i 0) (cell_outflow (mass_columns mass.now base.now carried.now undrawn 0 0) i) }
{
    shares_of(
        mass[i],
        base[i],
        right_part(carried[i + 1]),
        left_part(carried[i]),
    )
}

// What a cell holds with a share that has come
fn with_share(held: u64, share: u64) -> u64
    requires { (held ≤ mass_most + mass_most) × (share ≤ mass_most) }
    ensures { result ≡ held + share }
{
    held + share
}

// Every cell from the left, written once the shares of the next one are found. `held` is what has stayed in cell i and come from its left, `right` its right
// share. What the outlets have of it is taken off afterwards (`take_gains`).
pub fn move_mass(mass: &mut [u64], base: &[u64], carried: &[i64], left_in: u64, right_in: u64)
    requires { Ready (mass_columns mass.old base.now carried.now undrawn left_in right_in) }
    ensures { mass.new ≡ moved_mass (mass_columns mass.old base.now carried.now undrawn left_in right_in) }
{
    let n = mass.len();
    if n == 0 {
        return;
    }
    let first = shares_at(mass, base, carried, 0);
    let mut held = with_share(first.rest, left_in);
    let mut right = first.right;
    for i in 0..n - 1 {
        let next = shares_at(mass, base, carried, i + 1);
        mass[i] = with_share(held, next.left);
        held = with_share(next.rest, right);
        right = next.right;
    }
    mass[n - 1] = with_share(held, right_in);
}
