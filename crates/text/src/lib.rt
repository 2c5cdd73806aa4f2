// Text put into a lent buffer of bytes, one text behind the other.
#![tactic(auto)]

ghost use Rattle.std.specs.Prelude.{◌≡◌, [], ◌∷◌, ◌+◌, ◌-◌, ◌/◌, ◌%◌, ◌^◌, ◌≤◌, length};
ghost use Rattle.text.specs.Text.{digit_count, decimal, signed_decimal};
ghost use Rattle.text.specs.Writer.{Adds, Room};

// A buffer, and where the next text goes
#[derive(Drop)]
pub struct Writer<'a> {
    pub out: &'a mut [u8],
    pub at: usize,
}

// How many digits a number has, and what the highest counts
#[derive(Clone, Copy)]
struct Digits {
    count: usize,
    unit: u64,
}

fn digits_of(n: u64) -> Digits
    ensures { (result.count ≡ digit_count n) × ((result.unit ≡ 10 ^ (result.count - 1)) × (result.count ≤ 20)) }
{
    let mut unit = 1;
    for count in 1..20 {
        if n / 10 < unit {
            return Digits { count, unit };
        }
        unit *= 10;
    }
    Digits { count: 20, unit }
}

// 0 to 9 as a byte
fn digit(n: u64, unit: u64) -> u8
    requires { 1 ≤ unit }
    ensures { result ≡ 48 + n / unit % 10 }
{
    (48 + n / unit % 10) as u8
}

impl<'a> Writer<'a> {
    // At the start of the buffer
    pub fn new(out: &'a mut [u8]) -> Writer<'a>
        ensures same { result.out.ghost_name ≡ out.entry.ghost_name }
        ensures start { (result.at ≡ 0) × (result.out.now ≡ out.old) }
    {
        Writer { out, at: 0 }
    }

    pub fn byte(&mut self, b: u8)
        requires { Room self.old 1 }
        ensures { Adds self.old (b ∷ []) self.new }
    {
        self.out[self.at] = b;
        self.at += 1;
    }

    pub fn word(&mut self, word: &[u8])
        requires { Room self.old (length word.now) }
        ensures { Adds self.old word.now self.new }
    {
        let next = self.at + word.len();
        self.out[self.at..next].copy_from_slice(word);
        self.at = next;
    }

    pub fn decimal(&mut self, n: u64)
        requires { Room self.old 20 }
        ensures most { self.new.at ≤ self.old.at + 20 }
        ensures adds { Adds self.old (decimal n) self.new }
    {
        let Digits { count, mut unit } = digits_of(n);
        let next = self.at + count;
        for byte in &mut self.out[self.at..next] {
            *byte = digit(n, unit);
            unit /= 10;
        }
        self.at = next;
    }

    pub fn signed(&mut self, z: i64)
        requires { Room self.old 21 }
        ensures most { self.new.at ≤ self.old.at + 21 }
        ensures adds { Adds self.old (signed_decimal z) self.new }
    {
        if z < 0 {
            self.byte(b'-');
        }
        self.decimal(z.unsigned_abs());
    }
}
