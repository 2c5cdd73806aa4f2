// What the program does with its input: it opens, steps and transports.
#![tactic(auto)]

ghost use Rattle.std.specs.Prelude.{◌≡◌};
ghost use Rattle.reach.specs.Reach.{came};
ghost use Rattle.reach.specs.Grounds.{pass_or};
ghost use Rattle.outlet.specs.Outlets.{no_outlets};
ghost use Rattle.sheet.specs.Opening.{none_held};
ghost use Rattle.play.specs.Play.{steps, count_fits, played};
ghost use Rattle.play.specs.Ranges.{RanTo, PlayedTo};

use outlet::no_outlets;
use reach::held::Held;
use reach::refusal::Refusal;
use sheet::opening::open_sheet;
use stepping::step::step;

// 0 or the number of a refusal, and the boundaries and the ledger as the last call left them
#[derive(Clone, Copy)]
pub struct Ran {
    pub refusal: u32,
    pub held: Held,
}

fn run_steps(
    bed: &[i64],
    depth: &mut [u64],
    discharge: &mut [i64],
    mass: &mut [u64],
    base: &mut [u64],
    carried: &mut [i64],
    x: u64,
    held: Held,
    count: u64,
    t: u64,
) -> Ran
    ensures { RanTo (steps count t (came bed.now depth.old discharge.old mass.old base.old carried.old x held)) result bed.now depth.new discharge.new mass.new base.new carried.new x }
{
    let mut last = held;
    for i in 0..count {
        let r = step(bed, depth, discharge, mass, base, carried, x, last, t, 0);
        let next = r.held;
        if r.refusal != 0 {
            return Ran {
                refusal: r.refusal,
                held: next,
            };
        }
        last = next;
    }
    Ran {
        refusal: 0,
        held: last,
    }
}

fn came_to(refusal: u32, held: Held) -> Ran
    ensures { (result.refusal ≡ refusal) × (result.held ≡ held) }
{
    Ran { refusal, held }
}

// A step count over 1,000 is 10
#[tactic(auto, unfolding(crate::specs::Play::count_fits))]
fn check_count(count: u64) -> Result<(), Refusal>
    ensures { result ≡ pass_or Refusal.TimeStep (count_fits count) }
{
    Refusal::TimeStep.unless(count <= 1_000)
}

// Opens the sheet into the lent columns, with an empty list of outlets, steps count times, and transports.
pub fn play(
    s: &[u8],
    bed: &mut [i64],
    depth: &mut [u64],
    discharge: &mut [i64],
    mass: &mut [u64],
    base: &mut [u64],
    carried: &mut [i64],
    count: u64,
    t: u64,
) -> Ran
    ensures { PlayedTo (played s.now (came bed.old depth.old discharge.old mass.old base.old carried.old 0 (none_held no_outlets)) count t) result bed.new depth.new discharge.new mass.new base.new carried.new }
{
    let none = no_outlets();
    let o = open_sheet(s, bed, depth, discharge, mass, base, carried, none);
    let opened = o.held;
    if o.refusal != 0 {
        return came_to(o.refusal, opened);
    }
    if let Err(r) = check_count(count) {
        return came_to(r.into(), opened);
    }
    let x = o.cell_length;
    let r = run_steps(
        bed, depth, discharge, mass, base, carried, x, opened, count, t,
    );
    let stepped = r.held;
    if r.refusal != 0 {
        return came_to(r.refusal, stepped);
    }
    let a = transport::transport(bed, depth, discharge, mass, base, carried, x, stepped);
    came_to(a.refusal, a.held)
}
