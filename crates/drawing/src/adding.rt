// Amounts of outlets added up by cell.
ghost use Rattle.std.specs.Prelude.{◌≡◌, ℕ, ◌+◌, ◌≤◌, ◌<◌, length, get_or};
ghost use Rattle.numbers.specs.Index.{tabulate};
ghost use Rattle.outlet.specs.Outlets.{outlets_most, outlet_at};
ghost use Rattle.drawing.specs.Ranges.{by_cell};

use outlet::Outlets;

// Each outlet's amount is added to its cell's entry.
pub fn add_by_cell(outlets: Outlets, amounts: [u64; 32], column: &mut [u64])
    requires count_le_outlets_most { outlets.count ≤ outlets_most }
    requires by_index { (k : ℕ) → k < outlets.count → ((outlet_at outlets k).cell < length column.old) × (get_or amounts k 0 ≤ 1_000_000_000) }
    requires by_index_2 { (i : ℕ) → i < length column.old → get_or column.old i 0 ≤ 1_000_000_000 }
    ensures { column.new ≡ tabulate (length column.old) (λ i. get_or column.old i 0 + by_cell outlets amounts i) }
{
    let n = outlets.count;
    for (k, o) in outlets.list[..n].iter().enumerate() {
        column[o.cell as usize] += amounts[k];
    }
}
