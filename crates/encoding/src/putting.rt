// Little-endian numbers and columns of them, written as bytes. A width w comes with `half`, half of 256^w, where numbers are signed;
// not one struct, since unsigned numbers have any width, and no `half`.
ghost use Rattle.std.specs.Prelude.{◌≡◌, ◌++◌, map, ℕ, ◌+◌, ◌*◌, ◌^◌, ◌≤◌, ◌<◌, pos, nat_abs, length, get_or, take, drop, All};
ghost use Rattle.reach.specs.Limits.{cells_most};
ghost use Rattle.encoding.specs.ToBytes.{bytes_of, bits_in, bits, column_bytes, written};

// Two's complement in a range of 2·half numbers, which itself may not fit the type. Of any width: `cast_unsigned` is that of 8 bytes alone.
pub fn bits_in(half: u64, z: i64) -> u64
    requires { (half ≤ 9_223_372_036_854_775_808) × (nat_abs z < half) }
    ensures { result ≡ bits_in (2 * half) z }
{
    if z < 0 {
        half - z.unsigned_abs() + half
    } else {
        z as u64
    }
}

// The lowest w bytes of v, at the start of out
pub fn put_number(out: &mut [u8], w: usize, v: u64)
    requires { w ≤ length out.old }
    ensures { out.new ≡ written (bytes_of w v) out.old }
{
    let mut rest = v;
    for byte in &mut out[..w] {
        *byte = (rest % 256) as u8;
        rest /= 256;
    }
}

// A column of numbers of w bytes, each as `bits` gives it, at the start of out
fn fill_each<T: Copy, F: Fn(T) -> u64>(out: &mut [u8], w: usize, column: &[T], bits: F)
    requires column_fits { w * length column.now ≤ length out.old }
    requires callable { All (F.pre bits) column.now }
    ensures { (f : T → ℕ) → ((z : T) (r : ℕ) → F.pre bits z → F.post bits z r → r ≡ f z) → out.new ≡ written (column_bytes w (map f column.now)) out.old }
{
    for (i, z) in column.iter().enumerate() {
        put_number(&mut out[w * i..], w, bits(*z));
    }
}

// The numbers as they stand
pub fn fill(out: &mut [u8], w: usize, column: &[u64])
    requires { w * length column.now ≤ length out.old }
    ensures { out.new ≡ written (column_bytes w column.now) out.old }
{
    fill_each(out, w, column, |v| v);
}

// The same from `at` on
pub fn put_column(out: &mut [u8], at: usize, w: usize, column: &[u64])
    requires { at + w * length column.now ≤ length out.old }
    ensures { out.new ≡ take at out.old ++ written (column_bytes w column.now) (drop at out.old) }
{
    fill(&mut out[at..], w, column);
}

// A column of signed numbers of w bytes, from `at` on
pub fn put_signed(out: &mut [u8], at: usize, w: usize, half: u64, column: &[i64])
    requires half_bound { (half ≤ 9_223_372_036_854_775_808) × (2 * half ≡ 256 ^ w) }
    requires column_len_bound { (length column.now ≤ cells_most) × (at + w * length column.now ≤ length out.old) }
    requires by_index { (i : ℕ) → i < length column.now → nat_abs (get_or column.now i (pos 0)) < half }
    ensures { out.new ≡ take at out.old ++ written (column_bytes w (map (bits w) column.now)) (drop at out.old) }
{
    fill_each(&mut out[at..], w, column, |z| bits_in(half, z));
}
