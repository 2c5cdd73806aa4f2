// Amounts of outlets, in list order.
ghost use Rattle.std.specs.Prelude.{◌≡◌, ℕ, ◌<◌, min, length, get_or};
ghost use Rattle.numbers.specs.Index.{tabulate};
ghost use Rattle.outlet.specs.Outlets.{outlet_at};

use outlet::{Outlet, Outlets};

// An amount of each outlet
fn amounts_of<F: Fn(Outlet) -> u64>(outlets: &Outlets, amount: F) -> [u64; 32]
    requires { F.IsAlwaysCallable amount }
    ensures { (k : ℕ) → k < 32 → F.post amount (outlet_at outlets.now k) (get_or result k 0) }
{
    let mut amounts = [0u64; 32];
    for (k, o) in outlets.list.iter().enumerate() {
        amounts[k] = amount(*o);
    }
    amounts
}

// What each outlet wants
pub fn wants_of(outlets: Outlets) -> [u64; 32]
    ensures { result ≡ tabulate 32 (λ k. (outlet_at outlets k).want) }
{
    amounts_of(&outlets, |o| o.want)
}

// What each outlet has drawn, or one more than any base depth where that is less: such a sum does not overflow, and is
// above a base depth exactly where that of the amounts drawn is.
pub fn drawn_of(outlets: Outlets) -> [u64; 32]
    ensures { result ≡ tabulate 32 (λ k. min (outlet_at outlets k).drawn 4_000_001) }
{
    amounts_of(&outlets, |o| o.drawn.min(4_000_001))
}
