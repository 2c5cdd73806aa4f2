// The exports of the library for C, those of include/jemmyfern.h: each is the function of its name in jemmyfern_c, with that function's contract.
#![tactic(auto)]

ghost use Rattle.std.specs.Prelude.{◌≡◌};
ghost use Rattle.outlet.specs.Outlets.{loaded};
ghost use Rattle.reach.specs.Reach.{came};
ghost use Rattle.transport.specs.Calls.{set_boundaries, transport as transportOf, CameTo};
ghost use Rattle.timestep.specs.GreatestStep.{greatest};
ghost use Rattle.stepping.specs.StepCall.{StepCameTo};
ghost use Rattle.sheet.specs.Opening.{none_held, opening, OpenCameTo};
ghost use Rattle.writing.specs.Writing.{WriteCameTo};
ghost use Rattle.jemmyfern_c.specs.Answers.{given_held, RestKept, open_with, step_with, transport_with, greatest_with, write_with};

use jemmyfern_c::answer::{Answer, Boundaries, Greatest, Opened, Stepped};
use outlet::Outlet;
use reach::ledger::Ledger;

#[unsafe(no_mangle)]
pub extern "C" fn jemmyfern_open(
    s: &[u8],
    bed: &mut [i64],
    depth: &mut [u64],
    discharge: &mut [i64],
    mass: &mut [u64],
    base: &mut [u64],
    carried: &mut [i64],
    outlets: &mut [Outlet],
) -> Opened
    ensures { OpenCameTo (opening s.now (came bed.old depth.old discharge.old mass.old base.old carried.old 0 (none_held (loaded outlets.old)))) (open_with result outlets.new) bed.new depth.new discharge.new mass.new base.new carried.new × RestKept outlets.old outlets.new }
{
    jemmyfern_c::jemmyfern_open(s, bed, depth, discharge, mass, base, carried, outlets)
}

#[unsafe(no_mangle)]
pub extern "C" fn jemmyfern_step(
    bed: &[i64],
    depth: &mut [u64],
    discharge: &mut [i64],
    mass: &mut [u64],
    base: &mut [u64],
    carried: &mut [i64],
    outlets: &mut [Outlet],
    x: u64,
    boundaries: Boundaries,
    ledger: Ledger,
    t: u64,
    f: u64,
) -> Stepped
    ensures { StepCameTo (came bed.now depth.old discharge.old mass.old base.old carried.old x (given_held boundaries.boundaries ledger outlets.old)) t f (step_with result outlets.new) depth.new discharge.new mass.new base.new carried.new × RestKept outlets.old outlets.new }
{
    jemmyfern_c::jemmyfern_step(
        bed, depth, discharge, mass, base, carried, outlets, x, boundaries, ledger, t, f,
    )
}

#[unsafe(no_mangle)]
pub extern "C" fn jemmyfern_transport(
    bed: &[i64],
    depth: &[u64],
    discharge: &[i64],
    mass: &mut [u64],
    base: &mut [u64],
    carried: &mut [i64],
    outlets: &mut [Outlet],
    x: u64,
    boundaries: Boundaries,
    ledger: Ledger,
) -> Answer
    ensures { CameTo (transportOf (came bed.now depth.now discharge.now mass.old base.old carried.old x (given_held boundaries.boundaries ledger outlets.old))) (transport_with result outlets.new) mass.new base.new carried.new × RestKept outlets.old outlets.new }
{
    jemmyfern_c::jemmyfern_transport(
        bed, depth, discharge, mass, base, carried, outlets, x, boundaries, ledger,
    )
}

#[unsafe(no_mangle)]
pub extern "C" fn jemmyfern_set_boundaries(
    bed: &[i64],
    depth: &[u64],
    discharge: &[i64],
    mass: &mut [u64],
    base: &mut [u64],
    carried: &mut [i64],
    outlets: &mut [Outlet],
    x: u64,
    boundaries: Boundaries,
    ledger: Ledger,
    new: Boundaries,
) -> Answer
    ensures { CameTo (set_boundaries (came bed.now depth.now discharge.now mass.old base.old carried.old x (given_held boundaries.boundaries ledger outlets.old)) new.boundaries) (transport_with result outlets.new) mass.new base.new carried.new × RestKept outlets.old outlets.new }
{
    jemmyfern_c::jemmyfern_set_boundaries(
        bed, depth, discharge, mass, base, carried, outlets, x, boundaries, ledger, new,
    )
}

#[unsafe(no_mangle)]
pub extern "C" fn jemmyfern_greatest_step(
    bed: &[i64],
    depth: &[u64],
    discharge: &[i64],
    mass: &[u64],
    base: &[u64],
    carried: &[i64],
    outlets: &[Outlet],
    x: u64,
    boundaries: Boundaries,
    ledger: Ledger,
) -> Greatest
    ensures { greatest_with result outlets.now ≡ greatest (came bed.now depth.now discharge.now mass.now base.now carried.now x (given_held boundaries.boundaries ledger outlets.now)) }
{
    jemmyfern_c::jemmyfern_greatest_step(
        bed, depth, discharge, mass, base, carried, outlets, x, boundaries, ledger,
    )
}

#[unsafe(no_mangle)]
pub extern "C" fn jemmyfern_write(
    bed: &[i64],
    depth: &[u64],
    discharge: &[i64],
    mass: &[u64],
    base: &[u64],
    carried: &[i64],
    outlets: &[Outlet],
    x: u64,
    boundaries: Boundaries,
    ledger: Ledger,
    out: &mut [u8],
) -> Answer
    ensures { WriteCameTo (came bed.now depth.now discharge.now mass.now base.now carried.now x (given_held boundaries.boundaries ledger outlets.now)) out.old (write_with result outlets.now) out.new }
{
    jemmyfern_c::jemmyfern_write(
        bed, depth, discharge, mass, base, carried, outlets, x, boundaries, ledger, out,
    )
}
