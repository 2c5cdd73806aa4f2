// The program of document 01 as a function on bytes: its input, and the text that it prints.
#![tactic(auto)]

ghost use Rattle.std.specs.Prelude.{◌≡◌, ◌-◌, ◌/◌, ◌≤◌, length};
ghost use Rattle.reach.specs.Limits.{cells_most};
ghost use Rattle.reach.specs.Grounds.{pass_or};
ghost use Rattle.sheet.specs.Header.{header_size};
ghost use Rattle.outlet.specs.Outlets.{no_outlets};
ghost use Rattle.sheet.specs.Opening.{lent};
ghost use Rattle.play.specs.Play.{played};
ghost use Rattle.report.specs.Report.{outcome_text};
ghost use Rattle.text.specs.Text.{Put};
ghost use Rattle.program.specs.Program.{trailer_fits, input_fits, program_text};

use encoding::reading::read_number;
use play::play;
use reach::cells::CELLS_MOST;
use reach::refusal::Refusal;
use report::{put_refused, put_report};
use sheet::header::HEADER_SIZE;

// Bytes of the step count and t behind the sheet, of a cell in a sheet, and of the longest input
const TRAILER: usize = 8;

const CELL_SIZE: usize = 24;

pub const INPUT_MOST: usize = 12_376;

// Plays a sheet on lent columns, and puts what came of it at the start of `out`.
fn answer(
    s: &[u8],
    count: u64,
    t: u64,
    bed: &mut [i64],
    depth: &mut [u64],
    discharge: &mut [i64],
    mass: &mut [u64],
    base: &mut [u64],
    carried: &mut [i64],
    out: &mut [u8],
) -> usize
    requires { (length depth.old ≤ 512) × ((length discharge.old ≡ length depth.old) × ((length mass.old ≡ length depth.old) × (65_536 ≤ length out.old))) }
    ensures value { (result ≡ length (outcome_text (played s.now (lent bed.old depth.old discharge.old mass.old base.old carried.old no_outlets) count t))) × (result ≤ 65_536) }
    ensures put { Put out.old 0 (outcome_text (played s.now (lent bed.old depth.old discharge.old mass.old base.old carried.old no_outlets) count t)) out.new }
{
    let r = play(s, bed, depth, discharge, mass, base, carried, count, t);
    let ledger = r.held.ledger;
    if r.refusal != 0 {
        return put_refused(out, r.refusal);
    }
    put_report(out, depth, discharge, mass, ledger)
}

// How many cells a sheet of k bytes holds
fn cells_in(k: usize) -> usize
    requires { k ≤ 12_368 }
    ensures { (result ≡ (k - header_size) / 24) × (result ≤ cells_most) }
{
    if k < HEADER_SIZE {
        return 0;
    }
    (k - HEADER_SIZE) / CELL_SIZE
}

// An input under 8 bytes is 1
#[tactic(auto, unfolding(crate::specs::Program::trailer_fits))]
fn check_trailer(size: usize) -> Result<(), Refusal>
    ensures { result ≡ pass_or Refusal.Edition (trailer_fits size) }
{
    Refusal::Edition.unless(TRAILER <= size)
}

// One over 12,376 bytes is 2
#[tactic(auto, unfolding(crate::specs::Program::input_fits))]
fn check_input(size: usize) -> Result<(), Refusal>
    ensures { result ≡ pass_or Refusal.Size (input_fits size) }
{
    Refusal::Size.unless(size <= INPUT_MOST)
}

// The text for this input, at the start of `out`; answers its length.
pub fn program(input: &[u8], out: &mut [u8]) -> usize
    requires { 65_536 ≤ length out.old }
    ensures value { (result ≡ length (program_text input.now)) × (result ≤ 65_536) }
    ensures put { Put out.old 0 (program_text input.now) out.new }
{
    if let Err(r) = check_trailer(input.len()) {
        return put_refused(out, r.into());
    }
    if let Err(r) = check_input(input.len()) {
        return put_refused(out, r.into());
    }
    let k = input.len() - TRAILER;
    let count = read_number(input, k, 4);
    let t = read_number(input, k + 4, 4);
    let n = cells_in(k);
    // no heap: room for the longest reach
    let mut z = [0i64; CELLS_MOST];
    let mut h = [0u64; CELLS_MOST];
    let mut q = [0i64; CELLS_MOST];
    let mut m = [0u64; CELLS_MOST];
    let mut b = [0u64; CELLS_MOST];
    let mut c = [0i64; CELLS_MOST + 1];
    answer(
        &input[..k],
        count,
        t,
        &mut z[..n],
        &mut h[..n],
        &mut q[..n],
        &mut m[..n],
        &mut b[..n],
        &mut c[..n + 1],
        out,
    )
}
