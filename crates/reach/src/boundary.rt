// A boundary of the reach, the paper's 'end', and ground 6.
ghost use Rattle.std.specs.Prelude.{◌≡◌};
ghost use Rattle.reach.specs.Grounds.{wall_fits, open_fits, fed_fits, kind_fits, boundary_fits, boundaries_fit, pass_or};

use super::refusal::Refusal;

// Both boundaries travel as one value: [Boundary; 2], the left one first.
#[repr(C)]
#[derive(Clone, Copy, Default)]
pub struct Boundary {
    // 0 wall, 1 open, 2 fed: a number and no enum, since C passes it, and any other is refused by 6
    pub kind: u32,
    // always 0: the paper's 'zero field'
    pub reserved: u32,
    // micrometres
    pub depth: u64,
    // micrograms per litre
    pub concentration: u64,
    // micrometres times mm/s, positive rightwards
    pub discharge: i64,
}

// Which of the two a boundary is
#[derive(Clone, Copy)]
pub enum BoundaryPlace {
    Left,
    Right,
}

pub const WALL: u32 = 0;

pub const OPEN: u32 = 1;

pub const FED: u32 = 2;

#[tactic(auto, unfolding(crate::specs::Grounds::wall_fits, numbers::specs::Index::all_of))]
fn wall_fits(depth: u64, concentration: u64, discharge: i64) -> bool
    ensures { result ≡ wall_fits depth concentration discharge }
{
    depth == 0 && discharge == 0 && concentration == 0
}

#[tactic(auto, unfolding(crate::specs::Grounds::open_fits, numbers::specs::Index::all_of))]
fn open_fits(depth: u64, concentration: u64, discharge: i64) -> bool
    ensures { result ≡ open_fits depth concentration discharge }
{
    depth == 0 && discharge == 0 && concentration <= 500_000
}

#[tactic(auto, unfolding(crate::specs::Grounds::fed_fits, numbers::specs::Index::all_of))]
fn fed_fits(depth: u64, concentration: u64, discharge: i64) -> bool
    ensures { result ≡ fed_fits depth concentration discharge }
{
    1 <= depth
        && depth <= 4_000_000
        && discharge.unsigned_abs() <= 8_000 * depth
        && concentration <= 500_000
}

#[tactic(auto, unfolding(crate::specs::Grounds::kind_fits))]
fn kind_fits(kind: u32, depth: u64, concentration: u64, discharge: i64) -> bool
    ensures { result ≡ kind_fits kind depth concentration discharge }
{
    match kind {
        WALL => wall_fits(depth, concentration, discharge),
        OPEN => open_fits(depth, concentration, discharge),
        FED => fed_fits(depth, concentration, discharge),
        _ => false,
    }
}

#[tactic(auto, unfolding(crate::specs::Grounds::boundary_fits, numbers::specs::Index::all_of))]
fn boundary_fits(e: Boundary) -> bool
    ensures { result ≡ boundary_fits e }
{
    e.reserved == 0 && kind_fits(e.kind, e.depth, e.concentration, e.discharge)
}

#[tactic(auto, unfolding(crate::specs::Grounds::boundaries_fit, numbers::specs::Index::all_of))]
pub fn check_boundaries(boundaries: [Boundary; 2]) -> Result<(), Refusal>
    ensures { result ≡ pass_or Refusal.Boundaries (boundaries_fit boundaries) }
{
    Refusal::Boundaries.unless(boundary_fits(boundaries[0]) && boundary_fits(boundaries[1]))
}
