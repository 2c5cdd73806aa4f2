// Signed numbers and their two parts: max(z,0), 'right', and max(−z,0), 'left'.
ghost use Rattle.std.specs.Prelude.{◌≡◌, ◌≤◌, ◌<◌, leb, nat_abs, ◌+ℤ◌, neg_ℤ};
ghost use Rattle.std.proofs.Math.IntN.{sub_ℕ};
ghost use Rattle.numbers.specs.Signed.{positive};

// A signed number right − left. Where each part is what its name says of a number, one of the two is 0.
#[derive(Clone, Copy, Default)]
pub struct Parts {
    pub right: u64,
    pub left: u64,
}

// max(z, 0) by arithmetic: no choice that a processor would have to predict
pub fn right_part(z: i64) -> u64
    ensures { result ≡ positive z }
{
    let rightwards = (0 <= z) as i64;
    (rightwards * z) as u64
}

// max(−z, 0), over the whole range of i64
pub fn left_part(z: i64) -> u64
    ensures { result ≡ positive (neg_ℤ z) }
{
    if z < 0 { z.unsigned_abs() } else { 0 }
}

// |z| ≤ most, by its two ends: the compiler makes one comparison of them
pub fn within(z: i64, most: u32) -> bool
    ensures { result ≡ leb (nat_abs z) most }
{
    let end = i64::from(most);
    -end <= z && z <= end
}

// right − left as a signed number
pub fn joined(right: u64, left: u64) -> i64
    requires { (right < 9_223_372_036_854_775_808) × (left < 9_223_372_036_854_775_808) }
    ensures { result ≡ sub_ℕ right left }
{
    right as i64 - left as i64
}

// y + z of numbers far from the ends of their type
pub fn sum_of(y: i64, z: i64) -> i64
    requires { (nat_abs y ≤ 1_000_000_000) × (nat_abs z ≤ 1_000_000_000) }
    ensures { result ≡ y +ℤ z }
{
    y + z
}
