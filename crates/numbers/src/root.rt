// The whole square root, rounded up, of a number of at most 63·2^20.
ghost use Rattle.std.specs.Prelude.{◌≡◌, ◌+◌, ◌*◌, ◌≤◌, ◌<◌};
ghost use Rattle.numbers.specs.Root.{square_root_ceil};
ghost use Rattle.numbers.specs.Table.{RootTable};

// floor(4,096·√k) for k = 0..63
const ROOTS: [u16; 64] = [
    0, 4096, 5792, 7094, 8192, 9158, 10033, 10836, 11585, 12288, 12952, 13584, 14188, 14768, 15325,
    15863, 16384, 16888, 17377, 17854, 18317, 18770, 19211, 19643, 20066, 20480, 20885, 21283,
    21673, 22057, 22434, 22805, 23170, 23529, 23883, 24232, 24576, 24914, 25249, 25579, 25905,
    26227, 26545, 26859, 27169, 27476, 27780, 28080, 28377, 28672, 28963, 29251, 29536, 29819,
    30099, 30376, 30651, 30924, 31194, 31461, 31727, 31990, 32251, 32510,
];

// That table, laid out once for many roots: a constant array is built anew wherever it is named.
#[derive(Drop)]
pub struct SquareRoots {
    pub table: [u16; 64],
    pub ghost fits: { RootTable table },
}

impl SquareRoots {
    pub fn new() -> SquareRoots {
        SquareRoots { table: ROOTS }
    }

    // 4,096·span times the point at rest/span of the chord of the root from k to k + 1. A chord of the root lies below it.
    fn chord(&self, k: usize, rest: u64, span: u64) -> u64
        requires { (k < 63) × ((rest ≤ span) × (span ≤ 1_048_576)) }
        ensures { result * result ≤ span * (16_777_216 * (k * span + rest)) }
    {
        (span - rest) * u64::from(self.table[k]) + rest * u64::from(self.table[k + 1])
    }

    // A number at most the root of x, and for every wave speed of the model at most 4 below it.
    // The four spans are squares, so that each quotient is a shift, and each range ends at 63 of them. The deepest water is asked for first.
    fn below_root(&self, x: u64) -> u64
        requires { x < 66_060_288 }
        ensures { result * result ≤ x }
    {
        if 16_515_072 <= x {
            return self.chord((x / 1_048_576) as usize, x % 1_048_576, 1_048_576) / 4_194_304;
        }
        if 1_032_192 <= x {
            return self.chord((x / 262_144) as usize, x % 262_144, 262_144) / 2_097_152;
        }
        if 16_128 <= x {
            return self.chord((x / 16_384) as usize, x % 16_384, 16_384) / 524_288;
        }
        self.chord((x / 256) as usize, x % 256, 256) / 65_536
    }

    // The least whole number whose square is at least x: raised from below to the first that need not be raised.
    pub fn square_root_ceil(&self, x: u64) -> u64
        requires { x ≤ 66_060_288 }
        ensures { result ≡ square_root_ceil x }
    {
        if x == 0 {
            return 0;
        }
        let mut a = raised(x, self.below_root(x - 1));
        // a loop that yields the root by its break, as document 01 has it
        let root = loop {
            let next = a + 1;
            if x <= next * next {
                break next;
            }
            a = next;
        };
        root
    }
}

// One raise, by a choice and not a branch: most wave speeds need none or one.
fn raised(x: u64, a: u64) -> u64
    requires { (x ≤ 67_108_864) × (a * a < x) }
    ensures { result * result < x }
{
    let next = a + 1;
    if next * next < x { next } else { a }
}
