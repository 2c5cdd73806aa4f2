// Little-endian numbers and columns of them, read from bytes. A width w comes with `half`, half of 256^w, where numbers are signed;
// not one struct, since unsigned numbers have any width, and no `half`.
ghost use Rattle.std.specs.Prelude.{◌≡◌, ℕ, ◌+◌, ◌*◌, ◌^◌, ◌≤◌, ◌<◌, length};
ghost use Rattle.encoding.specs.FromBytes.{number_at, twos_in, twos, column_at};

// The number in the w bytes from `at` on
pub fn read_number(s: &[u8], at: usize, w: usize) -> u64
    requires { (w ≤ 8) × (at + w ≤ length s.now) }
    ensures { (result ≡ number_at w s.now at) × (result < 256 ^ w) }
{
    let mut v = 0;
    for i in (0..w).rev() {
        v = u64::from(s[at + i]) + 256 * v;
    }
    v
}

// Two's complement in a range of 2·half numbers. Of any width: `cast_signed` is that of 8 bytes alone.
pub fn twos_in(half: u64, v: u64) -> i64
    requires { (half ≤ 9_223_372_036_854_775_808) × (v < 2 * half) }
    ensures { result ≡ twos_in (2 * half) v }
{
    if v < half {
        return v as i64;
    }
    -1 - ((half - 1 - (v - half)) as i64)
}

// The signed number in the w bytes from `at` on
pub fn read_signed(s: &[u8], at: usize, w: usize, half: u64) -> i64
    requires w_bound { (w ≤ 8) × (at + w ≤ length s.now) }
    requires half_bound { (half ≤ 9_223_372_036_854_775_808) × (2 * half ≡ 256 ^ w) }
    ensures { result ≡ twos w (number_at w s.now at) }
{
    twos_in(half, read_number(s, at, w))
}

// Every entry becomes what `entry` makes of the number at its place in the column of numbers of w bytes from `at` on.
fn read_each<T: Copy, F: Fn(u64) -> T>(s: &[u8], at: usize, w: usize, to: &mut [T], entry: F)
    requires w_bound { (w ≤ 8) × (at + w * length to.old ≤ length s.now) }
    requires callable { (v : ℕ) → v < 256 ^ w → F.pre entry v }
    ensures { (f : ℕ → T) → ((v : ℕ) (r : T) → v < 256 ^ w → F.post entry v r → r ≡ f v) → to.new ≡ column_at f w s.now at (length to.old) }
{
    for (i, e) in to.iter_mut().enumerate() {
        *e = entry(read_number(s, at + w * i, w));
    }
}

// Every entry becomes the number at its place in the column of numbers of w bytes from `at` on.
pub fn read_column(s: &[u8], at: usize, w: usize, to: &mut [u64])
    requires { (w ≤ 8) × (at + w * length to.old ≤ length s.now) }
    ensures { to.new ≡ column_at (λ v. v) w s.now at (length to.old) }
{
    read_each(s, at, w, to, |v| v);
}

// The same of signed numbers
pub fn read_signed_column(s: &[u8], at: usize, w: usize, half: u64, to: &mut [i64])
    requires w_bound { (w ≤ 8) × (at + w * length to.old ≤ length s.now) }
    requires half_bound { (half ≤ 9_223_372_036_854_775_808) × (2 * half ≡ 256 ^ w) }
    ensures { to.new ≡ column_at (twos w) w s.now at (length to.old) }
{
    read_each(s, at, w, to, |v| twos_in(half, v));
}
