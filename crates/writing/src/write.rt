// The write call: grounds 4 to 9 and 16, then 14 and 15, in checking order, all of them before the first byte.
ghost use Rattle.std.specs.Prelude.{◌≡◌, [], ℕ, ◌≤◌, ◌<◌, pos, nat_abs, length, get_or};
ghost use Rattle.outlet.specs.Outlets.{outlets_most, no_outlets};
ghost use Rattle.reach.specs.Limits.{cells_most};
ghost use Rattle.reach.specs.Reach.{reach_of, came, left_boundary, right_boundary, held_with};
ghost use Rattle.reach.specs.Refusals.{number};
ghost use Rattle.reach.specs.Grounds.{pass_or};
ghost use Rattle.sheet.specs.Header.{sheet_size};
ghost use Rattle.sheet.specs.Opening.{empty_ledger};
ghost use Rattle.encoding.specs.ToBytes.{written};
ghost use Rattle.writing.specs.Writing.{sheet_bytes, none_carried, none_drawn, room_fits, write_refusal, written_with, WriteCameTo};

use super::header::put_header;
use encoding::putting::{put_column, put_signed};
use outlet::Outlets;
use reach::boundary::Boundary;
use reach::check_record;
use reach::held::Held;
use reach::refusal::Refusal;
use sheet::header::{HALF_4, HALF_8, HEADER_SIZE};

// What a write hands back: 0 or the number of its refusal, and the boundaries, the ledger and the outlets as they came.
#[repr(C)]
#[derive(Clone, Copy)]
pub struct WriteAnswer {
    pub refusal: u32,
    pub held: Held,
}

// Ground 14, of the carried water
fn check_none_carried(carried: &[i64]) -> Result<(), Refusal>
    ensures { result ≡ pass_or Refusal.NotTransported (none_carried carried.now) }
{
    for c in carried {
        if *c != 0 {
            return Err(Refusal::NotTransported);
        }
    }
    Ok(())
}

// Ground 14, of the water that the outlets have drawn, of a list that is not too long
fn check_none_drawn(outlets: Outlets) -> Result<(), Refusal>
    requires { outlets.count ≤ outlets_most }
    ensures { result ≡ pass_or Refusal.NotTransported (none_drawn outlets) }
{
    for k in 0..outlets.count {
        if outlets.list[k].drawn != 0 {
            return Err(Refusal::NotTransported);
        }
    }
    Ok(())
}

// Ground 15, of n cells and an output of `room` bytes
#[tactic(auto, unfolding(crate::specs::Writing::room_fits, sheet::specs::Header::sheet_size))]
fn check_room(n: usize, room: usize) -> Result<(), Refusal>
    requires { n ≤ cells_most }
    ensures { result ≡ pass_or Refusal.ShortOutput (room_fits n room) }
{
    Refusal::ShortOutput.unless(HEADER_SIZE + 24 * n <= room)
}

fn check_write(
    bed: &[i64],
    depth: &[u64],
    discharge: &[i64],
    mass: &[u64],
    base: &[u64],
    carried: &[i64],
    x: u64,
    held: Held,
    room: usize,
) -> Result<(), Refusal>
    ensures { result ≡ write_refusal (came bed.now depth.now discharge.now mass.now base.now carried.now x held) room }
{
    let boundaries = held.boundaries;
    check_record(
        bed, depth, discharge, mass, base, carried, x, held, boundaries,
    )?;
    check_none_carried(carried)?;
    let outlets = held.outlets;
    check_none_drawn(outlets)?;
    check_room(bed.len(), room)
}

// The whole sheet, at the start of out. Each column is filled from its own offset on. A sheet has no base depths, carried water, ledger or outlets.
fn put_sheet(
    out: &mut [u8],
    bed: &[i64],
    depth: &[u64],
    discharge: &[i64],
    mass: &[u64],
    x: u64,
    boundaries: [Boundary; 2],
)
    requires bed_len_bound { (length bed.now ≤ cells_most) × (sheet_size (length bed.now) ≤ length out.old) }
    requires depth_len { (length depth.now ≡ length bed.now) × ((length discharge.now ≡ length bed.now) × (length mass.now ≡ length bed.now)) }
    requires boundaries_bound { (nat_abs (left_boundary boundaries).discharge < 9_223_372_036_854_775_808) × (nat_abs (right_boundary boundaries).discharge < 9_223_372_036_854_775_808) }
    requires by_index { (i : ℕ) → i < length bed.now → nat_abs (get_or bed.now i (pos 0)) < 2_147_483_648 }
    requires by_index_2 { (i : ℕ) → i < length discharge.now → nat_abs (get_or discharge.now i (pos 0)) < 9_223_372_036_854_775_808 }
    ensures { out.new ≡ written (sheet_bytes (reach_of bed.now depth.now discharge.now mass.now [] [] x (held_with boundaries empty_ledger no_outlets))) out.old }
{
    let n = bed.len();
    put_header(out, n as u64, x, boundaries);
    put_signed(out, HEADER_SIZE, 4, HALF_4, bed);
    put_column(out, HEADER_SIZE + 4 * n, 4, depth);
    put_signed(out, HEADER_SIZE + 8 * n, 8, HALF_8, discharge);
    put_column(out, HEADER_SIZE + 16 * n, 8, mass);
}

fn refused(r: Refusal, held: Held) -> WriteAnswer
    ensures { result ≡ written_with (number r) held }
{
    WriteAnswer {
        refusal: r.into(),
        held,
    }
}

// Writes a record that carries nothing, and of which nothing is drawn, as a sheet at the start of out.
pub fn write_sheet(
    bed: &[i64],
    depth: &[u64],
    discharge: &[i64],
    mass: &[u64],
    base: &[u64],
    carried: &[i64],
    x: u64,
    held: Held,
    out: &mut [u8],
) -> WriteAnswer
    ensures { WriteCameTo (came bed.now depth.now discharge.now mass.now base.now carried.now x held) out.old result out.new }
{
    if let Err(r) = check_write(
        bed,
        depth,
        discharge,
        mass,
        base,
        carried,
        x,
        held,
        out.len(),
    ) {
        return refused(r, held);
    }
    let boundaries = held.boundaries;
    put_sheet(out, bed, depth, discharge, mass, x, boundaries);
    WriteAnswer { refusal: 0, held }
}
