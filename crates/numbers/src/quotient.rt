// Quotients by one number many times over: a product with its reciprocal and one correction, where a processor is slow to divide.
ghost use Rattle.std.specs.Prelude.{◌≡◌, ◌+◌, ◌*◌, ◌/◌, ◌≤◌, ◌<◌};
ghost use Rattle.numbers.specs.Quotient.{DivisorFits};

// A number, and floor((2^64 − 1) / it)
#[derive(Clone, Copy)]
pub struct Divisor {
    pub value: u64,
    pub reciprocal: u64,
    pub ghost fits: { DivisorFits value reciprocal },
}

impl Divisor {
    pub fn new(d: u64) -> Divisor
        requires { 0 < d }
        ensures { result.value ≡ d }
    {
        Divisor {
            value: d,
            reciprocal: 18_446_744_073_709_551_615 / d,
        }
    }

    // floor(n / d): the product falls short by at most one
    pub fn divide(self, n: u64) -> u64
        ensures { result ≡ n / self.value }
    {
        let q = upper_half(n, self.reciprocal);
        if self.value <= n - q * self.value {
            q + 1
        } else {
            q
        }
    }
}

// floor(u·v / 2^64), by hand in base 2^32: the compiler makes one instruction of it
fn upper_half(u: u64, v: u64) -> u64
    ensures { (result * 18_446_744_073_709_551_616 ≤ u * v) × (u * v < (result + 1) * 18_446_744_073_709_551_616) }
{
    let u1 = u / 4_294_967_296;
    let u0 = u % 4_294_967_296;
    let v1 = v / 4_294_967_296;
    let v0 = v % 4_294_967_296;
    let lowest = u0 * v0;
    let middle = u1 * v0 + lowest / 4_294_967_296;
    let next = middle % 4_294_967_296 + u0 * v1;
    u1 * v1 + middle / 4_294_967_296 + next / 4_294_967_296
}
