// The mass that goes to each outlet.
ghost use Rattle.std.specs.Prelude.{◌≡◌, ◌+◌, ◌-◌, ◌≤◌, ◌<◌, pos, neg_ℤ, length, get_or};
ghost use Rattle.numbers.specs.Index.{tabulate};
ghost use Rattle.numbers.specs.Shares.{share};
ghost use Rattle.numbers.specs.Signed.{positive};
ghost use Rattle.reach.specs.Limits.{total_most};
ghost use Rattle.reach.specs.Parts.{drawn_from};
ghost use Rattle.mass.specs.Transport.{mass_columns, moved_outlets};
ghost use Rattle.mass.specs.Ranges.{Giving, Gained, mass_most, gains, OutletsReady};

use super::floor_after;
use numbers::signed::{left_part, right_part};
use outlet::{Outlet, Outlets};
use reach::cells::CELLS_MOST;

// The share of a part of cell i that comes after its right, its left and `before`
fn share_at(mass: &[u64], base: &[u64], carried: &[i64], i: usize, before: u64, part: u64) -> u64
    requires i_in_bounds { (i < length mass.now) × ((length base.now ≡ length mass.now) × (length carried.now ≡ length mass.now + 1)) }
    requires giving { Giving (get_or mass.now i 0) (get_or base.now i 0) (positive (get_or carried.now (i + 1) (pos 0)) + positive (neg_ℤ (get_or carried.now i (pos 0))) + before + part) }
    ensures { result ≡ share (get_or mass.now i 0) (get_or base.now i 0) (positive (get_or carried.now (i + 1) (pos 0)) + positive (neg_ℤ (get_or carried.now i (pos 0))) + before) part }
{
    let m = mass[i];
    let b = base[i];
    let start = right_part(carried[i + 1]) + left_part(carried[i]) + before;
    let low = floor_after(m, b, 0, start, 0);
    floor_after(m, b, start, part, low) - low
}

fn outlet_after(o: Outlet, share: u64) -> Outlet
    requires { (o.mass ≤ total_most) × (share ≤ mass_most) }
    ensures { result ≡ record { cell = o.cell; want = o.want; drawn = 0; water = o.water; mass = o.mass + share } }
{
    Outlet {
        drawn: 0,
        mass: o.mass + share,
        ..o
    }
}

// Every outlet in list order, after what those before it have drawn of its cell. Without one no column is laid out.
pub fn move_outlets(mass: &[u64], base: &[u64], carried: &[i64], outlets: Outlets) -> Outlets
    requires { OutletsReady mass.now base.now carried.now outlets }
    ensures { result ≡ moved_outlets (mass_columns mass.now base.now carried.now (drawn_from outlets) 0 0) outlets }
{
    if outlets.count == 0 {
        return outlets;
    }
    let count = outlets.count;
    let mut list = outlets.list;
    // no heap: room for the longest reach
    let mut before = [0u64; CELLS_MOST];
    for o in list[..count].iter_mut() {
        let cell = o.cell as usize;
        let share = share_at(mass, base, carried, cell, before[cell], o.drawn);
        before[cell] += o.drawn;
        *o = outlet_after(*o, share);
    }
    Outlets { count, list }
}

// Takes off each cell's mass what its outlets have gained of it.
pub fn take_gains(mass: &mut [u64], old: Outlets, new: Outlets)
    requires { Gained mass.old old new }
    ensures { mass.new ≡ tabulate (length mass.old) (λ i. get_or mass.old i 0 - gains old new i) }
{
    let count = old.count;
    for (k, o) in old.list[..count].iter().enumerate() {
        let next = new.list[k];
        mass[o.cell as usize] -= next.mass - o.mass;
    }
}
