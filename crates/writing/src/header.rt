// The header of a sheet, written.
ghost use Rattle.std.specs.Prelude.{◌≡◌, ◌≤◌, ◌<◌, nat_abs, length};
ghost use Rattle.reach.specs.Limits.{cells_most};
ghost use Rattle.reach.specs.Reach.{left_boundary, right_boundary};
ghost use Rattle.sheet.specs.Header.{header_size};
ghost use Rattle.encoding.specs.ToBytes.{written};
ghost use Rattle.writing.specs.Writing.{boundary_bytes, header_bytes};

use encoding::putting::{bits_in, fill};
use reach::boundary::Boundary;
use sheet::header::{HALF_8, HEADER_SIZE};

// A boundary's 24 bytes, at the start of out
fn put_boundary(out: &mut [u8], e: Boundary)
    requires { (24 ≤ length out.old) × (nat_abs e.discharge < 9_223_372_036_854_775_808) }
    ensures { out.new ≡ written (boundary_bytes e) out.old }
{
    let words = [u64::from(e.kind), e.depth, e.concentration, 0];
    fill(out, 4, &words);
    let discharge = [bits_in(HALF_8, e.discharge)];
    fill(&mut out[16..], 8, &discharge);
}

// The header of n cells, at the start of out
pub fn put_header(out: &mut [u8], n: u64, x: u64, boundaries: [Boundary; 2])
    requires n_le_cells_most { (n ≤ cells_most) × (header_size ≤ length out.old) }
    requires boundaries_bound { (nat_abs (left_boundary boundaries).discharge < 9_223_372_036_854_775_808) × (nat_abs (right_boundary boundaries).discharge < 9_223_372_036_854_775_808) }
    ensures { out.new ≡ written (header_bytes n x boundaries) out.old }
{
    let first = HEADER_SIZE as u64;
    let words = [
        1,
        first + 24 * n,
        n,
        x,
        first,
        first + 4 * n,
        first + 8 * n,
        first + 16 * n,
    ];
    fill(out, 4, &words);
    let [left, right] = boundaries;
    put_boundary(&mut out[32..], left);
    put_boundary(&mut out[56..], right);
}
