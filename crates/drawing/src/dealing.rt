// A cell's grant dealt out to its outlets.
ghost use Rattle.std.specs.Prelude.{◌≡◌, cond, ℕ, ◌+◌, ◌*◌, ◌/◌, ◌≤◌, ◌<◌, ltb, length, get_or};
ghost use Rattle.numbers.specs.Index.{tabulate};
ghost use Rattle.numbers.specs.Deal.{has_unit, units_left, dealt};
ghost use Rattle.outlet.specs.Outlets.{outlets_most, want_most, outlet_at, from_cell};
ghost use Rattle.drawing.specs.Ranges.{Granted, floor_at, unit_at};

use outlet::Outlets;

// An outlet's part of a grant, of a want of at most 4,000,000 in at most 32 times that
fn floor_of(grant: u64, want: u64, wanted: u64) -> u64
    requires { (grant ≤ 128_000_000) × (want ≤ want_most) }
    ensures { result ≡ grant * want / wanted }
{
    if wanted == 0 {
        return 0;
    }
    grant * want / wanted
}

// The unit that an outlet has where so many are left
fn unit_of(left: u64, want: u64) -> u64
    ensures { result ≡ cond (has_unit left want) 1 0 }
{
    u64::from(left > 0 && want > 0)
}

// Each outlet's floor, taken off its cell's grant: what stays there are the units left.
fn floors_of(outlets: Outlets, wanted: &[u64], granted: &[u64], left: &mut [u64]) -> [u64; 32]
    requires granted { Granted outlets wanted.now granted.now }
    requires left_value { left.old ≡ granted.now }
    ensures value { result ≡ tabulate 32 (λ k. cond (ltb k outlets.count) (floor_at outlets wanted.now granted.now k) 0) }
    ensures left_after { left.new ≡ tabulate (length left.old) (λ i. units_left (get_or granted.now i 0) (from_cell (λ o. o.want) outlets i)) }
{
    let n = outlets.count;
    let mut floors = [0u64; 32];
    for (k, o) in outlets.list[..n].iter().enumerate() {
        let cell = o.cell as usize;
        let floor = floor_of(granted[cell], o.want, wanted[cell]);
        floors[k] = floor;
        left[cell] -= floor;
    }
    floors
}

// The units left in each cell go singly to its outlets that want something, in list order.
fn hand_out(outlets: Outlets, mut floors: [u64; 32], left: &mut [u64]) -> [u64; 32]
    requires count_le_outlets_most { outlets.count ≤ outlets_most }
    requires by_index { (k : ℕ) → k < outlets.count → ((outlet_at outlets k).cell < length left.old) × (get_or floors k 0 ≤ want_most) }
    ensures { result ≡ tabulate 32 (λ k. cond (ltb k outlets.count) (get_or floors k 0 + unit_at outlets left.old k) (get_or floors k 0)) }
{
    let n = outlets.count;
    for (k, o) in outlets.list[..n].iter().enumerate() {
        let cell = o.cell as usize;
        let unit = unit_of(left[cell], o.want);
        floors[k] += unit;
        left[cell] -= unit;
    }
    floors
}

// What each outlet has of its cell's grant; `left` is room to work in.
pub fn deal(outlets: Outlets, wanted: &[u64], granted: &[u64], left: &mut [u64]) -> [u64; 32]
    requires granted { Granted outlets wanted.now granted.now }
    requires left_len { length left.old ≡ length granted.now }
    ensures { result ≡ tabulate 32 (λ k. cond (ltb k outlets.count) (get_or (dealt (get_or granted.now (outlet_at outlets k).cell 0) (from_cell (λ o. o.want) outlets (outlet_at outlets k).cell)) k 0) 0) }
{
    left.copy_from_slice(granted);
    let floors = floors_of(outlets, wanted, granted, left);
    hand_out(outlets, floors, left)
}
