// The six calls as C has them, the interface of include/jemmyfern.h; jemmyfern_c_c exports them. Each loads the lent outlets, passes the call on, and writes the outlets back; it states
// the contract of the call that it passes on, and requires nothing.
#![tactic(auto)]

pub mod answer;

ghost use Rattle.std.specs.Prelude.{◌≡◌};
ghost use Rattle.outlet.specs.Outlets.{loaded};
ghost use Rattle.reach.specs.Reach.{came};
ghost use Rattle.transport.specs.Calls.{set_boundaries, transport as transportOf, CameTo};
ghost use Rattle.timestep.specs.GreatestStep.{greatest};
ghost use Rattle.stepping.specs.StepCall.{StepCameTo};
ghost use Rattle.sheet.specs.Opening.{none_held, opening, OpenCameTo};
ghost use Rattle.writing.specs.Writing.{WriteCameTo};
ghost use Rattle.jemmyfern_c.specs.Answers.{given_held, RestKept, open_with, step_with, transport_with, greatest_with, write_with};

use answer::{Answer, Boundaries, Greatest, Opened, Stepped, given_held, room_of};
use outlet::{Outlet, load, store};
use reach::ledger::Ledger;
use sheet::opening::open_sheet;
use writing::write::write_sheet;

pub fn jemmyfern_open(
    s: &[u8],
    bed: &mut [i64],
    depth: &mut [u64],
    discharge: &mut [i64],
    mass: &mut [u64],
    base: &mut [u64],
    carried: &mut [i64],
    outlets: &mut [Outlet],
) -> Opened
    ensures { OpenCameTo (opening s.now (came bed.old depth.old discharge.old mass.old base.old carried.old 0 (none_held (loaded outlets.old)))) (open_with result outlets.new) bed.new depth.new discharge.new mass.new base.new carried.new × RestKept outlets.old outlets.new }
{
    let list = load(outlets);
    let a = open_sheet(s, bed, depth, discharge, mass, base, carried, list);
    let room = room_of(a.held);
    store(outlets, room);
    a.into()
}

pub fn jemmyfern_step(
    bed: &[i64],
    depth: &mut [u64],
    discharge: &mut [i64],
    mass: &mut [u64],
    base: &mut [u64],
    carried: &mut [i64],
    outlets: &mut [Outlet],
    x: u64,
    boundaries: Boundaries,
    ledger: Ledger,
    t: u64,
    f: u64,
) -> Stepped
    ensures { StepCameTo (came bed.now depth.old discharge.old mass.old base.old carried.old x (given_held boundaries.boundaries ledger outlets.old)) t f (step_with result outlets.new) depth.new discharge.new mass.new base.new carried.new × RestKept outlets.old outlets.new }
{
    let list = load(outlets);
    let held = given_held(boundaries, ledger, list);
    let a = stepping::step::step(bed, depth, discharge, mass, base, carried, x, held, t, f);
    let room = room_of(a.held);
    store(outlets, room);
    a.into()
}

pub fn jemmyfern_transport(
    bed: &[i64],
    depth: &[u64],
    discharge: &[i64],
    mass: &mut [u64],
    base: &mut [u64],
    carried: &mut [i64],
    outlets: &mut [Outlet],
    x: u64,
    boundaries: Boundaries,
    ledger: Ledger,
) -> Answer
    ensures { CameTo (transportOf (came bed.now depth.now discharge.now mass.old base.old carried.old x (given_held boundaries.boundaries ledger outlets.old))) (transport_with result outlets.new) mass.new base.new carried.new × RestKept outlets.old outlets.new }
{
    let list = load(outlets);
    let held = given_held(boundaries, ledger, list);
    let a = transport::transport(bed, depth, discharge, mass, base, carried, x, held);
    let room = room_of(a.held);
    store(outlets, room);
    a.into()
}

pub fn jemmyfern_set_boundaries(
    bed: &[i64],
    depth: &[u64],
    discharge: &[i64],
    mass: &mut [u64],
    base: &mut [u64],
    carried: &mut [i64],
    outlets: &mut [Outlet],
    x: u64,
    boundaries: Boundaries,
    ledger: Ledger,
    new: Boundaries,
) -> Answer
    ensures { CameTo (set_boundaries (came bed.now depth.now discharge.now mass.old base.old carried.old x (given_held boundaries.boundaries ledger outlets.old)) new.boundaries) (transport_with result outlets.new) mass.new base.new carried.new × RestKept outlets.old outlets.new }
{
    let list = load(outlets);
    let held = given_held(boundaries, ledger, list);
    let given = new.boundaries;
    let a = transport::set_boundaries(bed, depth, discharge, mass, base, carried, x, held, given);
    let room = room_of(a.held);
    store(outlets, room);
    a.into()
}

pub fn jemmyfern_greatest_step(
    bed: &[i64],
    depth: &[u64],
    discharge: &[i64],
    mass: &[u64],
    base: &[u64],
    carried: &[i64],
    outlets: &[Outlet],
    x: u64,
    boundaries: Boundaries,
    ledger: Ledger,
) -> Greatest
    ensures { greatest_with result outlets.now ≡ greatest (came bed.now depth.now discharge.now mass.now base.now carried.now x (given_held boundaries.boundaries ledger outlets.now)) }
{
    let list = load(outlets);
    let held = given_held(boundaries, ledger, list);
    let a = timestep::greatest_step(bed, depth, discharge, mass, base, carried, x, held);
    a.into()
}

pub fn jemmyfern_write(
    bed: &[i64],
    depth: &[u64],
    discharge: &[i64],
    mass: &[u64],
    base: &[u64],
    carried: &[i64],
    outlets: &[Outlet],
    x: u64,
    boundaries: Boundaries,
    ledger: Ledger,
    out: &mut [u8],
) -> Answer
    ensures { WriteCameTo (came bed.now depth.now discharge.now mass.now base.now carried.now x (given_held boundaries.boundaries ledger outlets.now)) out.old (write_with result outlets.now) out.new }
{
    let list = load(outlets);
    let held = given_held(boundaries, ledger, list);
    let a = write_sheet(bed, depth, discharge, mass, base, carried, x, held, out);
    a.into()
}
