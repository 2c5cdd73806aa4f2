// One call of the list, played through its function.
ghost use Rattle.std.specs.Prelude.{◌≡◌, List, [], ◌∷◌, ℕ, ◌+◌, ◌≤◌, min, length, get_or};
ghost use Rattle.reach.specs.Reach.{came};
ghost use Rattle.tally.specs.Call.{step_call, transport_call, boundaries_call, greatest_call, write_call, open_call};
ghost use Rattle.script.specs.Script.{boundary_from, part, outlets_from, free_at, call_at};
ghost use Rattle.player.specs.Kind.{KindOf};
ghost use Rattle.player.specs.Plays.{came_to, Plays};

use super::Played;
use reach::held::Held;
use script::words::{boundaries_from, outlets_from, with_wants};
use sheet::opening::{OpenAnswer, open_sheet};
use stepping::step::step;
use timestep::greatest_step;
use transport::{set_boundaries, transport};
use writing::write::write_sheet;

// The answer of a call that gives no more than its number
fn came_to(refusal: u32, x: u64, held: Held) -> Played
    ensures { result ≡ came_to refusal x held }
{
    Played {
        refusal,
        transported: false,
        time: 0,
        place: 0,
        cell_length: x,
        held,
    }
}

// Each kind of call, with the wants of the call, from the record at hand on
fn play_step(
    words: &[u64],
    at: usize,
    bed: &[i64],
    depth: &mut [u64],
    discharge: &mut [i64],
    mass: &mut [u64],
    base: &mut [u64],
    carried: &mut [i64],
    x: u64,
    held: Held,
) -> Played
    requires { at + 206 ≤ length words.now }
    ensures { (out : List ℕ) → Plays (came bed.now depth.old discharge.old mass.old base.old carried.old x held) (free_at words.now at) (step_call (get_or words.now (at + 1) 0) (get_or words.now (at + 2) 0)) out result bed.now depth.new discharge.new mass.new base.new carried.new out }
{
    let wanted = with_wants(words, at, held);
    let t = words[at + 1];
    let f = words[at + 2];
    let r = step(bed, depth, discharge, mass, base, carried, x, wanted, t, f);
    let after = r.held;
    Played {
        refusal: r.refusal,
        transported: r.transported,
        time: 0,
        place: 0,
        cell_length: x,
        held: after,
    }
}

fn play_transport(
    words: &[u64],
    at: usize,
    bed: &[i64],
    depth: &[u64],
    discharge: &[i64],
    mass: &mut [u64],
    base: &mut [u64],
    carried: &mut [i64],
    x: u64,
    held: Held,
) -> Played
    requires { at + 206 ≤ length words.now }
    ensures { (out : List ℕ) → Plays (came bed.now depth.now discharge.now mass.old base.old carried.old x held) (free_at words.now at) transport_call out result bed.now depth.now discharge.now mass.new base.new carried.new out }
{
    let wanted = with_wants(words, at, held);
    let r = transport(bed, depth, discharge, mass, base, carried, x, wanted);
    let after = r.held;
    came_to(r.refusal, x, after)
}

fn play_setting(
    words: &[u64],
    at: usize,
    bed: &[i64],
    depth: &[u64],
    discharge: &[i64],
    mass: &mut [u64],
    base: &mut [u64],
    carried: &mut [i64],
    x: u64,
    held: Held,
) -> Played
    requires { at + 206 ≤ length words.now }
    ensures { (out : List ℕ) → Plays (came bed.now depth.now discharge.now mass.old base.old carried.old x held) (free_at words.now at) (boundaries_call (boundary_from words.now (at + 3) ∷ boundary_from words.now (at + 8) ∷ [])) out result bed.now depth.now discharge.now mass.new base.new carried.new out }
{
    let wanted = with_wants(words, at, held);
    let given = boundaries_from(words, at);
    let r = set_boundaries(bed, depth, discharge, mass, base, carried, x, wanted, given);
    let after = r.held;
    came_to(r.refusal, x, after)
}

fn play_greatest(
    words: &[u64],
    at: usize,
    bed: &[i64],
    depth: &[u64],
    discharge: &[i64],
    mass: &[u64],
    base: &[u64],
    carried: &[i64],
    x: u64,
    held: Held,
) -> Played
    requires { at + 206 ≤ length words.now }
    ensures { (out : List ℕ) → Plays (came bed.now depth.now discharge.now mass.now base.now carried.now x held) (free_at words.now at) greatest_call out result bed.now depth.now discharge.now mass.now base.now carried.now out }
{
    let wanted = with_wants(words, at, held);
    let r = greatest_step(bed, depth, discharge, mass, base, carried, x, wanted);
    let after = r.held;
    Played {
        refusal: r.refusal,
        transported: false,
        time: r.time,
        place: r.place,
        cell_length: x,
        held: after,
    }
}

// A write is lent the first bytes of the output, as many as it asks for.
fn play_write(
    words: &[u64],
    at: usize,
    bed: &[i64],
    depth: &[u64],
    discharge: &[i64],
    mass: &[u64],
    base: &[u64],
    carried: &[i64],
    x: u64,
    held: Held,
    out: &mut [u8],
) -> Played
    requires { at + 206 ≤ length words.now }
    ensures { Plays (came bed.now depth.now discharge.now mass.now base.now carried.now x held) (free_at words.now at) (write_call (min (get_or words.now (at + 1) 0) (length out.old))) out.old result bed.now depth.now discharge.now mass.now base.now carried.now out.new }
{
    let wanted = with_wants(words, at, held);
    let asked = words[at + 1];
    let room = (asked as usize).min(out.len());
    let r = write_sheet(
        bed,
        depth,
        discharge,
        mass,
        base,
        carried,
        x,
        wanted,
        &mut out[..room],
    );
    let after = r.held;
    came_to(r.refusal, x, after)
}

// After a refused opening the list goes on with the X, boundaries, ledger and outlets that it had.
fn opened(r: OpenAnswer, x: u64, held: Held) -> Played
    ensures value { (r.refusal ≡ 0 → ⊥) → result ≡ came_to r.refusal x held }
    ensures value_2 { r.refusal ≡ 0 → result ≡ came_to 0 r.cell_length r.held }
{
    let found = r.held;
    if r.refusal != 0 {
        return came_to(r.refusal, x, held);
    }
    came_to(0, r.cell_length, found)
}

// An opening of a part of the sheets, as far as there are any bytes, which is lent the list of outlets in the words of the call
fn play_opening(
    words: &[u64],
    at: usize,
    sheets: &[u8],
    bed: &mut [i64],
    depth: &mut [u64],
    discharge: &mut [i64],
    mass: &mut [u64],
    base: &mut [u64],
    carried: &mut [i64],
    x: u64,
    held: Held,
) -> Played
    requires { at + 206 ≤ length words.now }
    ensures { (out : List ℕ) → Plays (came bed.old depth.old discharge.old mass.old base.old carried.old x held) (free_at words.now at) (open_call (part sheets.now (get_or words.now (at + 1) 0) (get_or words.now (at + 2) 0)) (outlets_from words.now (at + 45))) out result bed.new depth.new discharge.new mass.new base.new carried.new out }
{
    let from = words[at + 1];
    let to = words[at + 2];
    let start = (from as usize).min(sheets.len());
    let end = start.max((to as usize).min(sheets.len()));
    let outlets = outlets_from(words, at + 45);
    let r = open_sheet(
        &sheets[start..end],
        bed,
        depth,
        discharge,
        mass,
        base,
        carried,
        outlets,
    );
    opened(r, x, held)
}

// What a call is, by its first word
#[derive(Clone, Copy)]
enum Kind {
    Step,
    Transport,
    Boundaries,
    Greatest,
    Write,
    Opening,
}

impl From<u64> for Kind {
    ghost from_gives = { KindOf };

    fn from(word: u64) -> Kind {
        match word {
            0 => Kind::Step,
            1 => Kind::Transport,
            2 => Kind::Boundaries,
            3 => Kind::Greatest,
            4 => Kind::Write,
            _ => Kind::Opening,
        }
    }
}

// One call, played through the function of its kind
pub fn play_call(
    words: &[u64],
    at: usize,
    sheets: &[u8],
    bed: &mut [i64],
    depth: &mut [u64],
    discharge: &mut [i64],
    mass: &mut [u64],
    base: &mut [u64],
    carried: &mut [i64],
    x: u64,
    held: Held,
    out: &mut [u8],
) -> Played
    requires { at + 206 ≤ length words.now }
    ensures { Plays (came bed.old depth.old discharge.old mass.old base.old carried.old x held) (free_at words.now at) (call_at words.now sheets.now (length out.old) at) out.old result bed.new depth.new discharge.new mass.new base.new carried.new out.new }
{
    match Kind::from(words[at]) {
        Kind::Step => play_step(
            words, at, bed, depth, discharge, mass, base, carried, x, held,
        ),
        Kind::Transport => play_transport(
            words, at, bed, depth, discharge, mass, base, carried, x, held,
        ),
        Kind::Boundaries => play_setting(
            words, at, bed, depth, discharge, mass, base, carried, x, held,
        ),
        Kind::Greatest => play_greatest(
            words, at, bed, depth, discharge, mass, base, carried, x, held,
        ),
        Kind::Write => play_write(
            words, at, bed, depth, discharge, mass, base, carried, x, held, out,
        ),
        Kind::Opening => play_opening(
            words, at, sheets, bed, depth, discharge, mass, base, carried, x, held,
        ),
    }
}
