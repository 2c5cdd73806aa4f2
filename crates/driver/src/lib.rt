// A driver that plays a list of calls, encoded in lent memory, through the functions themselves: demand 3 as a program.
#![tactic(auto)]

ghost use Rattle.std.specs.Prelude.{◌≡◌, ◌≤◌, length, set};
ghost use Rattle.reach.specs.Reach.{reach_of, came};
ghost use Rattle.sheet.specs.Opening.{none_held};
ghost use Rattle.script.specs.Script.{script};
ghost use Rattle.driver.specs.Replay.{flag, noted, world, played_from, ReplayCameTo};

use outlet::Outlets;
use player::call::play_call;
use reach::held::Held;
use sheet::opening::open_sheet;

// 0, or the number of the ground that refused the first opening (C has it by `harness`); X, boundaries, ledger and outlets as the last call left them
#[repr(C)]
#[derive(Clone, Copy)]
pub struct Replayed {
    pub refusal: u32,
    pub cell_length: u64,
    pub held: Held,
}

// Past the end nothing is noted. No `get_mut`: it does not say what the slice ends as.
fn put(answers: &mut [u64], at: usize, v: u64)
    ensures { answers.new ≡ set answers.old at v }
{
    if at < answers.len() {
        answers[at] = v;
    }
}

// Four words an answer
fn note(answers: &mut [u64], j: usize, refusal: u32, transported: bool, time: u64, place: usize)
    requires { j ≤ 1_000_000_000_000_000_000 }
    ensures { answers.new ≡ noted answers.old j refusal (flag transported) time place }
{
    let at = 4 * j;
    put(answers, at, u64::from(refusal));
    put(answers, at + 1, u64::from(transported));
    put(answers, at + 2, time);
    put(answers, at + 3, place as u64);
}

// Plays the calls of the words, 206 a call, from any record on.
pub fn resume(
    words: &[u64],
    sheets: &[u8],
    bed: &mut [i64],
    depth: &mut [u64],
    discharge: &mut [i64],
    mass: &mut [u64],
    base: &mut [u64],
    carried: &mut [i64],
    x: u64,
    held: Held,
    out: &mut [u8],
    answers: &mut [u64],
) -> Replayed
    ensures answers_after { world (reach_of bed.new depth.new discharge.new mass.new base.new carried.new result.cell_length result.held) out.new answers.new ≡ played_from (world (came bed.old depth.old discharge.old mass.old base.old carried.old x held) out.old answers.old) 0 (script words.now sheets.now (length out.old)) }
    ensures refusal_value { result.refusal ≡ 0 }
{
    let n = words.len() / 206;
    let mut cell_length = x;
    let mut current = held;
    for j in 0..n {
        let before = current;
        let p = play_call(
            words,
            206 * j,
            sheets,
            bed,
            depth,
            discharge,
            mass,
            base,
            carried,
            cell_length,
            before,
            out,
        );
        note(answers, j, p.refusal, p.transported, p.time, p.place);
        let after = p.held;
        cell_length = p.cell_length;
        current = after;
    }
    Replayed {
        refusal: 0,
        cell_length,
        held: current,
    }
}

// Opens the sheet with the outlets lent to it, and plays the calls of the words: demand 3.
pub fn replay(
    sheet: &[u8],
    words: &[u64],
    sheets: &[u8],
    bed: &mut [i64],
    depth: &mut [u64],
    discharge: &mut [i64],
    mass: &mut [u64],
    base: &mut [u64],
    carried: &mut [i64],
    outlets: Outlets,
    out: &mut [u8],
    answers: &mut [u64],
) -> Replayed
    ensures { ReplayCameTo sheet.now words.now sheets.now (came bed.old depth.old discharge.old mass.old base.old carried.old 0 (none_held outlets)) out.old answers.old result bed.new depth.new discharge.new mass.new base.new carried.new out.new answers.new }
{
    let o = open_sheet(sheet, bed, depth, discharge, mass, base, carried, outlets);
    let held = o.held;
    if o.refusal != 0 {
        return Replayed {
            refusal: o.refusal,
            cell_length: o.cell_length,
            held,
        };
    }
    resume(
        words,
        sheets,
        bed,
        depth,
        discharge,
        mass,
        base,
        carried,
        o.cell_length,
        held,
        out,
        answers,
    )
}
