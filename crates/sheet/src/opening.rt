// Opening a sheet: grounds 1 to 7 and 16 in checking order, all of them before the first write.
ghost use Rattle.std.specs.Prelude.{◌≡◌, ◌+◌, ◌*◌, ◌≤◌, ◌<◌, pos, length, replicate};
ghost use Rattle.numbers.specs.Index.{all_below};
ghost use Rattle.outlet.specs.Outlets.{outlets_most};
ghost use Rattle.reach.specs.Grounds.{first_refusal, pass_or};
ghost use Rattle.reach.specs.Refusals.{number};
ghost use Rattle.encoding.specs.FromBytes.{twos, column_at};
ghost use Rattle.reach.specs.Reach.{came};
ghost use Rattle.sheet.specs.Header.{header_size};
ghost use Rattle.sheet.specs.Ranges.{Within, cell_at};
ghost use Rattle.sheet.specs.Opening.{lent_fit, open_grounds, opening, none_held, held_of, unopened_by, OpenCameTo};

use super::header::{
    HALF_4, HALF_8, Layout, cell_length_of, check_columns, check_edition, check_size, count_of,
    layout_of, read_boundaries,
};
use encoding::reading::{read_column, read_number, read_signed, read_signed_column};
use outlet::Outlets;
use outlet::clearing::clear;
use reach::boundary::{Boundary, check_boundaries};
use reach::cells::{cell_fits, check_cell_length};
use reach::held::Held;
use reach::ledger::Ledger;
use reach::outlets::check_outlets;
use reach::refusal::Refusal;

// What an opening hands back: 0 or the number of its refusal, X in mm, both boundaries, an empty ledger, and the outlets that it was lent, cleared.
// Of a refused opening the outlets are as they were lent, and all else but the number is 0.
#[repr(C)]
#[derive(Clone, Copy)]
pub struct OpenAnswer {
    pub refusal: u32,
    pub cell_length: u64,
    pub held: Held,
}

// Ground 4, of the lengths of the lent columns
#[tactic(auto, unfolding(crate::specs::Opening::lent_fit, numbers::specs::Index::all_of))]
fn check_lent(
    n: usize,
    bed: usize,
    depth: usize,
    discharge: usize,
    mass: usize,
    base: usize,
    carried: usize,
) -> Result<(), Refusal>
    requires { n ≤ 1_000_000 }
    ensures { result ≡ pass_or Refusal.Lengths (lent_fit n bed depth discharge mass base carried) }
{
    Refusal::Lengths.unless(
        bed == n && depth == n && discharge == n && mass == n && base == n && carried == n + 1,
    )
}

// The values of cell i are in range; its base depth is its depth.
fn cell_at(s: &[u8], l: Layout, n: usize, i: usize) -> bool
    requires { Within s.now l n × (i < n) }
    ensures { result ≡ cell_at s.now l i }
{
    let h = read_number(s, l.depths + 4 * i, 4);
    cell_fits(
        read_signed(s, l.beds + 4 * i, 4, HALF_4),
        h,
        read_signed(s, l.discharges + 8 * i, 8, HALF_8),
        read_number(s, l.masses + 8 * i, 8),
        h,
    )
}

// Ground 7
fn check_values(s: &[u8], l: Layout, n: usize) -> Result<(), Refusal>
    requires { Within s.now l n }
    ensures { result ≡ pass_or Refusal.Values (all_below n (cell_at s.now l)) }
{
    for i in 0..n {
        if !cell_at(s, l, n, i) {
            return Err(Refusal::Values);
        }
    }
    Ok(())
}

// Grounds 1 to 7 and 16, of a sheet, the lengths of the lent columns and the outlets
#[tactic(auto, unfolding(reach::specs::Grounds::first_refusal))]
fn check_opening(
    s: &[u8],
    bed: usize,
    depth: usize,
    discharge: usize,
    mass: usize,
    base: usize,
    carried: usize,
    outlets: Outlets,
) -> Result<(), Refusal>
    ensures { result ≡ first_refusal (open_grounds s.now bed depth discharge mass base carried outlets) }
{
    check_edition(s)?;
    check_size(s)?;
    check_columns(s)?;
    let n = count_of(s);
    check_lent(n, bed, depth, discharge, mass, base, carried)?;
    check_cell_length(cell_length_of(s))?;
    check_boundaries(read_boundaries(s))?;
    check_values(s, layout_of(s), n)?;
    check_outlets(n, outlets)
}

// The sheet's values, b = h, c = 0. Nothing refuses any more.
fn fill(
    s: &[u8],
    l: Layout,
    bed: &mut [i64],
    depth: &mut [u64],
    discharge: &mut [i64],
    mass: &mut [u64],
    base: &mut [u64],
    carried: &mut [i64],
)
    requires within { Within s.now l (length bed.old) }
    requires depth_len { (length depth.old ≡ length bed.old) × ((length discharge.old ≡ length bed.old) × ((length mass.old ≡ length bed.old) × (length base.old ≡ length bed.old))) }
    ensures bed_after { bed.new ≡ column_at (twos 4) 4 s.now l.beds (length bed.old) }
    ensures depth_after { depth.new ≡ column_at (λ v. v) 4 s.now l.depths (length bed.old) }
    ensures discharge_after { discharge.new ≡ column_at (twos 8) 8 s.now l.discharges (length bed.old) }
    ensures mass_after { mass.new ≡ column_at (λ v. v) 8 s.now l.masses (length bed.old) }
    ensures base_after { base.new ≡ column_at (λ v. v) 4 s.now l.depths (length bed.old) }
    ensures carried_after { carried.new ≡ replicate (length carried.old) (pos 0) }
{
    read_signed_column(s, l.beds, 4, HALF_4, bed);
    read_column(s, l.depths, 4, depth);
    read_signed_column(s, l.discharges, 8, HALF_8, discharge);
    read_column(s, l.masses, 8, mass);
    base.copy_from_slice(depth);
    carried.fill(0);
}

// An opening is given no boundaries and no ledger; its outlets are those that it is lent
fn none_held(outlets: Outlets) -> Held
    ensures { result ≡ none_held outlets }
{
    Held {
        boundaries: [Boundary::default(); 2],
        ledger: Ledger::default(),
        outlets,
    }
}

fn unopened(r: Refusal, outlets: Outlets) -> OpenAnswer
    ensures { result ≡ unopened_by (number r) outlets }
{
    OpenAnswer {
        refusal: r.into(),
        cell_length: 0,
        held: none_held(outlets),
    }
}

// The sheet's boundaries, an empty ledger, and the outlets that were lent, cleared
fn held_of(s: &[u8], lent: Outlets) -> Held
    requires header_size_in_bounds { header_size ≤ length s.now }
    requires count_le_outlets_most { lent.count ≤ outlets_most }
    ensures { result ≡ held_of s.now lent }
{
    Held {
        boundaries: read_boundaries(s),
        ledger: Ledger::default(),
        outlets: clear(lent),
    }
}

// Opens a sheet into lent columns, with the outlets that are lent with them.
pub fn open_sheet(
    s: &[u8],
    bed: &mut [i64],
    depth: &mut [u64],
    discharge: &mut [i64],
    mass: &mut [u64],
    base: &mut [u64],
    carried: &mut [i64],
    outlets: Outlets,
) -> OpenAnswer
    ensures { OpenCameTo (opening s.now (came bed.old depth.old discharge.old mass.old base.old carried.old 0 (none_held outlets))) result bed.new depth.new discharge.new mass.new base.new carried.new }
{
    if let Err(r) = check_opening(
        s,
        bed.len(),
        depth.len(),
        discharge.len(),
        mass.len(),
        base.len(),
        carried.len(),
        outlets,
    ) {
        return unopened(r, outlets);
    }
    fill(s, layout_of(s), bed, depth, discharge, mass, base, carried);
    OpenAnswer {
        refusal: 0,
        cell_length: cell_length_of(s),
        held: held_of(s, outlets),
    }
}
