// Columns written in place.
ghost use Rattle.std.specs.Prelude.{◌≡◌, ℕ, ◌≤◌, ◌<◌, pos, ◌+ℤ◌, nat_abs, length, get_or};
ghost use Rattle.numbers.specs.Index.{tabulate};

use super::signed::sum_of;

// Every entry grows by the one of `by` at its place; `by` may be longer.
pub fn add_column(to: &mut [i64], by: &[i64])
    requires to_in_bounds { length to.old ≤ length by.now }
    requires by_index { (i : ℕ) → i < length to.old → (nat_abs (get_or to.old i (pos 0)) ≤ 1_000_000_000) × (nat_abs (get_or by.now i (pos 0)) ≤ 1_000_000_000) }
    ensures { to.new ≡ tabulate (length to.old) (λ i. get_or to.old i (pos 0) +ℤ get_or by.now i (pos 0)) }
{
    for (i, x) in to.iter_mut().enumerate() {
        *x = sum_of(*x, by[i]);
    }
}
