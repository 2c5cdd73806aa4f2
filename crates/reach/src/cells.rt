// The columns' lengths, the cell length and the cells' values: grounds 4, 5 and 7.
ghost use Rattle.std.specs.Prelude.{◌≡◌, length};
ghost use Rattle.reach.specs.Grounds.{lengths_fit, cell_length_fits, cell_fits, cells_fit, pass_or};
ghost use Rattle.reach.specs.Ranges.{CellLengths};

use super::refusal::Refusal;
use numbers::signed::within;

// The cells of a reach: work arrays of the calls are as long
pub const CELLS_MOST: usize = 512;

#[tactic(auto, unfolding(crate::specs::Grounds::lengths_fit, numbers::specs::Index::all_of))]
fn lengths_fit(
    bed: usize,
    depth: usize,
    discharge: usize,
    mass: usize,
    base: usize,
    carried: usize,
) -> bool
    ensures { result ≡ lengths_fit bed depth discharge mass base carried }
{
    1 <= bed
        && bed <= CELLS_MOST
        && depth == bed
        && discharge == bed
        && mass == bed
        && base == bed
        && carried == bed + 1
}

pub fn check_lengths(
    bed: &[i64],
    depth: &[u64],
    discharge: &[i64],
    mass: &[u64],
    base: &[u64],
    carried: &[i64],
) -> Result<(), Refusal>
    ensures { result ≡ pass_or Refusal.Lengths (lengths_fit (length bed.now) (length depth.now) (length discharge.now) (length mass.now) (length base.now) (length carried.now)) }
{
    Refusal::Lengths.unless(lengths_fit(
        bed.len(),
        depth.len(),
        discharge.len(),
        mass.len(),
        base.len(),
        carried.len(),
    ))
}

#[tactic(auto, unfolding(crate::specs::Grounds::cell_length_fits, numbers::specs::Index::all_of))]
fn cell_length_fits(x: u64) -> bool
    ensures { result ≡ cell_length_fits x }
{
    100 <= x && x <= 100_000
}

pub fn check_cell_length(x: u64) -> Result<(), Refusal>
    ensures { result ≡ pass_or Refusal.CellLength (cell_length_fits x) }
{
    Refusal::CellLength.unless(cell_length_fits(x))
}

#[tactic(auto, unfolding(crate::specs::Grounds::cell_fits, numbers::specs::Index::all_of))]
pub fn cell_fits(z: i64, h: u64, q: i64, m: u64, b: u64) -> bool
    ensures { result ≡ cell_fits z h q m b }
{
    // the last two together: as one chain of five, an opening reads each mass byte by byte and takes half as long again
    within(z, 100_000_000)
        && h <= 4_000_000
        && q.unsigned_abs() <= 8_000 * h
        && (b <= 4_000_000 && m <= 500_000 * b)
}

pub fn check_cells(
    bed: &[i64],
    depth: &[u64],
    discharge: &[i64],
    mass: &[u64],
    base: &[u64],
) -> Result<(), Refusal>
    requires { CellLengths (length bed.now) (length depth.now) (length discharge.now) (length mass.now) (length base.now) }
    ensures { result ≡ pass_or Refusal.Values (cells_fit bed.now depth.now discharge.now mass.now base.now) }
{
    let n = bed.len();
    for i in 0..n {
        if !cell_fits(bed[i], depth[i], discharge[i], mass[i], base[i]) {
            return Err(Refusal::Values);
        }
    }
    Ok(())
}
