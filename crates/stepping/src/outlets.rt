// What the outlets want and have in a step (document 02, point 1).
ghost use Rattle.std.specs.Prelude.{◌≡◌, cond, ℕ, ◌+◌, ◌≤◌, ◌<◌, ltb, length, get_or};
ghost use Rattle.numbers.specs.Deal.{dealt};
ghost use Rattle.numbers.specs.Index.{sum, tabulate};
ghost use Rattle.outlet.specs.Outlets.{outlets_most, want_most, outlet_at};
ghost use Rattle.drawing.specs.Ranges.{Granted};
ghost use Rattle.reach.specs.Limits.{cells_most};
ghost use Rattle.water.specs.Water.{wants_from};
ghost use Rattle.stepping.specs.Ranges.{with_draws, Room};

use drawing::adding::add_by_cell;
use drawing::amounts::wants_of;
use drawing::dealing::deal;
use outlet::{Outlet, Outlets};
use reach::cells::CELLS_MOST;
use reach::held::Held;

// What is wanted of each cell, added up in a column of zeros. The list is read out of what is held only where there is an outlet: it is long to copy.
pub fn wants_by_cell(held: Held, column: &mut [u64])
    requires count_le_outlets_most { held.outlets.count ≤ outlets_most }
    requires by_index { (k : ℕ) → k < held.outlets.count → ((outlet_at held.outlets k).cell < length column.old) × ((outlet_at held.outlets k).want ≤ want_most) }
    requires by_index_2 { (i : ℕ) → get_or column.old i 0 ≡ 0 }
    ensures { column.new ≡ tabulate (length column.old) (λ i. sum (wants_from held.outlets i)) }
{
    if held.outlets.count == 0 {
        return;
    }
    let outlets = held.outlets;
    let amounts = wants_of(outlets);
    add_by_cell(outlets, amounts, column);
}

// What each outlet has of what its cell gives
pub fn deal_out(held: Held, given: &[u64]) -> [u64; 32]
    requires { Granted held.outlets (tabulate cells_most (λ i. sum (wants_from held.outlets i))) given.now }
    ensures { result ≡ tabulate 32 (λ k. cond (ltb k held.outlets.count) (get_or (dealt (get_or given.now (outlet_at held.outlets k).cell 0) (wants_from held.outlets (outlet_at held.outlets k).cell)) k 0) 0) }
{
    if held.outlets.count == 0 {
        return [0u64; 32];
    }
    // no heap: room for the longest reach
    let mut wanted = [0u64; CELLS_MOST];
    let mut left = [0u64; CELLS_MOST];
    wants_by_cell(held, &mut wanted);
    deal(held.outlets, &wanted, given, &mut left)
}

fn outlet_with(o: Outlet, got: u64) -> Outlet
    requires { (got ≤ want_most) × ((o.drawn ≤ 1_000_000_000) × (o.water ≤ 1_000_000_000_000_000_000)) }
    ensures { result ≡ record { cell = o.cell; want = o.want; drawn = o.drawn + got; water = o.water + got; mass = o.mass } }
{
    Outlet {
        drawn: o.drawn + got,
        water: o.water + got,
        ..o
    }
}

// Every outlet with what it has in the step, since the last transport and in all
pub fn draw(outlets: Outlets, got: [u64; 32]) -> Outlets
    requires { Room outlets got }
    ensures { result ≡ with_draws outlets got }
{
    let count = outlets.count;
    let mut list = outlets.list;
    for (k, o) in list[..count].iter_mut().enumerate() {
        *o = outlet_with(*o, got[k]);
    }
    Outlets { count, list }
}
