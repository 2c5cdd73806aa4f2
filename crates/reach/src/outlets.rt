// The list of outlets that is lent with a record: ground 16, its part of ground 9, and what ground 8 reads of it.
ghost use Rattle.std.specs.Prelude.{◌≡◌, ℕ, ◌≤◌, ◌<◌, length, get_or};
ghost use Rattle.numbers.specs.Index.{all_below, tabulate};
ghost use Rattle.outlet.specs.Outlets.{outlets_most, outlet_at};
ghost use Rattle.reach.specs.Grounds.{outlet_fits, outlets_fit, outlet_totals_fit, pass_or};
ghost use Rattle.reach.specs.Ranges.{cut_drawn};

use super::refusal::Refusal;
use drawing::adding::add_by_cell;
use drawing::amounts::drawn_of;
use outlet::{OUTLETS_MOST, Outlet, Outlets};

#[tactic(auto, unfolding(crate::specs::Grounds::outlet_fits, numbers::specs::Index::all_of))]
fn outlet_fits(n: usize, o: Outlet) -> bool
    ensures { result ≡ outlet_fits n o }
{
    o.cell < n as u64 && o.want <= 4_000_000
}

pub fn check_outlets(n: usize, outlets: Outlets) -> Result<(), Refusal>
    ensures { result ≡ pass_or Refusal.Outlets (outlets_fit n outlets) }
{
    if OUTLETS_MOST < outlets.count {
        return Err(Refusal::Outlets);
    }
    for k in 0..outlets.count {
        if !outlet_fits(n, outlets.list[k]) {
            return Err(Refusal::Outlets);
        }
    }
    Ok(())
}

#[tactic(auto, unfolding(crate::specs::Grounds::outlet_totals_fit, numbers::specs::Index::all_of))]
fn outlet_totals_fit(o: Outlet) -> bool
    ensures { result ≡ outlet_totals_fit o }
{
    o.water <= 1_000_000_000_000_000_000 && o.mass <= 1_000_000_000_000_000_000
}

// The totals of every outlet of a list that is not too long
pub fn each_totals_fit(outlets: Outlets) -> bool
    requires { outlets.count ≤ outlets_most }
    ensures { result ≡ all_below outlets.count (λ k. outlet_totals_fit (outlet_at outlets k)) }
{
    for k in 0..outlets.count {
        if !outlet_totals_fit(outlets.list[k]) {
            return false;
        }
    }
    true
}

// What the outlets of each cell have drawn, added up in a column of zeros
pub fn drawn_by_cell(outlets: Outlets, column: &mut [u64])
    requires count_le_outlets_most { outlets.count ≤ outlets_most }
    requires by_index { (k : ℕ) → k < outlets.count → (outlet_at outlets k).cell < length column.old }
    requires by_index_2 { (i : ℕ) → get_or column.old i 0 ≡ 0 }
    ensures { column.new ≡ tabulate (length column.old) (cut_drawn outlets) }
{
    if outlets.count == 0 {
        return;
    }
    let amounts = drawn_of(outlets);
    add_by_cell(outlets, amounts, column);
}
