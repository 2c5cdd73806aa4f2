// The header of a sheet, and grounds 1 to 3.
ghost use Rattle.std.specs.Prelude.{◌≡◌, [], ◌∷◌, ◌+◌, ◌*◌, ◌^◌, ◌≤◌, ◌<◌, length};
ghost use Rattle.reach.specs.Limits.{cells_most};
ghost use Rattle.reach.specs.Grounds.{pass_or};
ghost use Rattle.sheet.specs.Header.{header_size, count_of, cell_length_of, boundary_at, boundaries_of, edition_fits, size_fits, span, inside as insideOf, apart as apartOf, columns_clear, spans_of};
ghost use Rattle.sheet.specs.Ranges.{Offset, LayoutOf};

use encoding::reading::{read_number, read_signed};
use reach::boundary::Boundary;
use reach::cells::CELLS_MOST;
use reach::refusal::Refusal;

pub const HEADER_SIZE: usize = 80;

// Half of the numbers of 4 and of 8 bytes
pub const HALF_4: u64 = 2_147_483_648;

pub const HALF_8: u64 = 9_223_372_036_854_775_808;

// n, and X
pub fn count_of(s: &[u8]) -> usize
    requires { header_size ≤ length s.now }
    ensures { (result ≡ count_of s.now) × (result < 256 ^ 4) }
{
    read_number(s, 8, 4) as usize
}

pub fn cell_length_of(s: &[u8]) -> u64
    requires { header_size ≤ length s.now }
    ensures { result ≡ cell_length_of s.now }
{
    read_number(s, 12, 4)
}

// Where each column starts
#[derive(Clone, Copy)]
pub struct Layout {
    pub beds: usize,
    pub depths: usize,
    pub discharges: usize,
    pub masses: usize,
}

pub fn layout_of(s: &[u8]) -> Layout
    requires { header_size ≤ length s.now }
    ensures { LayoutOf s.now result }
{
    Layout {
        beds: read_number(s, 16, 4) as usize,
        depths: read_number(s, 20, 4) as usize,
        discharges: read_number(s, 24, 4) as usize,
        masses: read_number(s, 28, 4) as usize,
    }
}

fn read_boundary(s: &[u8], at: usize) -> Boundary
    requires { at + 24 ≤ length s.now }
    ensures { result ≡ boundary_at s.now at }
{
    Boundary {
        kind: read_number(s, at, 4) as u32,
        reserved: read_number(s, at + 12, 4) as u32,
        depth: read_number(s, at + 4, 4),
        concentration: read_number(s, at + 8, 4),
        discharge: read_signed(s, at + 16, 8, HALF_8),
    }
}

pub fn read_boundaries(s: &[u8]) -> [Boundary; 2]
    requires { header_size ≤ length s.now }
    ensures { result ≡ boundaries_of s.now }
{
    [read_boundary(s, 32), read_boundary(s, 56)]
}

// Ground 1
#[tactic(auto, unfolding(crate::specs::Header::edition_fits, numbers::specs::Index::all_of))]
pub fn check_edition(s: &[u8]) -> Result<(), Refusal>
    ensures { result ≡ pass_or Refusal.Edition (edition_fits s.now) }
{
    Refusal::Edition.unless(HEADER_SIZE <= s.len() && read_number(s, 0, 4) == 1)
}

// Ground 2
#[tactic(auto, unfolding(crate::specs::Header::size_fits, numbers::specs::Index::all_of))]
pub fn check_size(s: &[u8]) -> Result<(), Refusal>
    requires { header_size ≤ length s.now }
    ensures { result ≡ pass_or Refusal.Size (size_fits s.now) }
{
    let n = count_of(s);
    let size = read_number(s, 4, 4) as usize;
    Refusal::Size.unless(
        1 <= n && n <= CELLS_MOST && size == s.len() && size == HEADER_SIZE + 24 * n,
    )
}

// A column of `size` bytes from `start` on lies behind the header and before the end.
fn inside(end: usize, start: usize, size: usize) -> bool
    requires { Offset start × Offset size }
    ensures { result ≡ insideOf end (span start size) }
{
    (HEADER_SIZE <= start) & (start + size <= end)
}

// Two columns have no byte in common.
fn apart(a: usize, a_size: usize, b: usize, b_size: usize) -> bool
    requires { (Offset a × Offset a_size) × (Offset b × Offset b_size) }
    ensures { result ≡ apartOf (span a a_size) (span b b_size) }
{
    (a + a_size <= b) | (b + b_size <= a)
}

fn columns_clear(end: usize, n: usize, l: Layout) -> bool
    requires { (n ≤ cells_most) × ((Offset l.beds × Offset l.depths) × (Offset l.discharges × Offset l.masses)) }
    ensures { result ≡ columns_clear end (span l.beds (4 * n) ∷ span l.depths (4 * n) ∷ span l.discharges (8 * n) ∷ span l.masses (8 * n) ∷ []) }
{
    let short = 4 * n;
    let long = 8 * n;
    let beds = inside(end, l.beds, short)
        & (apart(l.beds, short, l.depths, short)
            & (apart(l.beds, short, l.discharges, long) & apart(l.beds, short, l.masses, long)));
    let depths = inside(end, l.depths, short)
        & (apart(l.depths, short, l.discharges, long) & apart(l.depths, short, l.masses, long));
    let discharges = inside(end, l.discharges, long) & apart(l.discharges, long, l.masses, long);
    beds & (depths & (discharges & inside(end, l.masses, long)))
}

// Ground 3
pub fn check_columns(s: &[u8]) -> Result<(), Refusal>
    requires { (header_size ≤ length s.now) × (count_of s.now ≤ cells_most) }
    ensures { result ≡ pass_or Refusal.Layout (columns_clear (length s.now) (spans_of s.now)) }
{
    Refusal::Layout.unless(columns_clear(s.len(), count_of(s), layout_of(s)))
}
