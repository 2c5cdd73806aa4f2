// The starred figures of document 01, with the wave speed of document 02, point 3, and values of its points 4 and 5. Functions ensure them, so that the gate proves the whole table.
#![tactic(auto)]

ghost use Rattle.std.specs.Prelude.{◌≡◌};
ghost use Rattle.figures.specs.Figures.{Figures};
ghost use Rattle.figures.specs.Friction.{FrictionFigure};
ghost use Rattle.figures.specs.TwoCells.{TwoCellRun, CflFigure};

use numbers::signed::right_part;

pub fn figures_met()
    ensures { Figures }
{}

// The two-cell run and the CFL figure of document 01, with that wave speed, computed from the definitions
pub fn two_cell_run_met()
    ensures { TwoCellRun × CflFigure }
{}

// One cell with friction, by hand
pub fn friction_met()
    ensures { FrictionFigure }
{}

// The larger of x and 0 at both ends of ±16,000 and about 0 (document 02, point 5), as the code gives it
#[derive(Clone, Copy)]
pub struct PositiveParts {
    pub least: u64,
    pub below: u64,
    pub zero: u64,
    pub above: u64,
    pub most: u64,
}

pub fn parts_met() -> PositiveParts
    ensures { (result.least ≡ 0) × ((result.below ≡ 0) × ((result.zero ≡ 0) × ((result.above ≡ 1) × (result.most ≡ 16_000)))) }
{
    PositiveParts {
        least: right_part(-16_000),
        below: right_part(-1),
        zero: right_part(0),
        above: right_part(1),
        most: right_part(16_000),
    }
}
