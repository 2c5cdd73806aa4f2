// Velocity of a cell from its depth and discharge.
ghost use Rattle.std.specs.Prelude.{◌≡◌, nat_abs, neg_ℤ};
ghost use Rattle.numbers.specs.Signed.{positive};
ghost use Rattle.flux.specs.Velocity.{velocity};

use numbers::signed::{Parts, left_part, right_part};

// u = q/h cut towards zero, 0 where h is 0, as its two parts
pub fn velocity_parts(h: u64, q: i64) -> Parts
    ensures { (result.right ≡ positive (velocity h q)) × (result.left ≡ positive (neg_ℤ (velocity h q))) }
{
    if h == 0 {
        return Parts::default();
    }
    let right = right_part(q);
    if right == 0 {
        return Parts {
            right: 0,
            left: left_part(q) / h,
        };
    }
    Parts {
        right: right / h,
        left: 0,
    }
}

// |u|, one quotient whatever the sign
pub fn flow_speed(h: u64, q: i64) -> u64
    ensures { result ≡ nat_abs (velocity h q) }
{
    if h == 0 {
        return 0;
    }
    q.unsigned_abs() / h
}
