// A record with no outlet: grounds 7 to 9. Ground 16 stands, nothing is drawn, and the list of outlets is not copied.
ghost use Rattle.std.specs.Prelude.{◌≡◌, [], ◌∷◌, length};
ghost use Rattle.reach.specs.Grounds.{ground, first_refusal, cells_fit, carried_cells_fit, carried_fit, ledger_fits};
ghost use Rattle.reach.specs.Ranges.{ColumnLengths, undrawn};

use super::carried::{carried_fits, walls_fit};
use super::cells::cell_fits;
use super::ledger::{Ledger, ledger_fits};
use super::refusal::Refusal;
use numbers::signed::within;

// Grounds 7 and 8 of the cells in one pass. A cell that breaks 7 ends it; one that breaks 8 is only remembered, since a later one may break 7.
fn check_plain_cells(
    bed: &[i64],
    depth: &[u64],
    discharge: &[i64],
    mass: &[u64],
    base: &[u64],
    carried: &[i64],
) -> Result<(), Refusal>
    requires { ColumnLengths (length bed.now) (length depth.now) (length discharge.now) (length mass.now) (length base.now) (length carried.now) }
    ensures { result ≡ first_refusal (ground Refusal.Values (cells_fit bed.now depth.now discharge.now mass.now base.now) ∷ ground Refusal.Carried (carried_cells_fit depth.now base.now carried.now undrawn) ∷ []) }
{
    let n = bed.len();
    let mut left = carried[0];
    let mut balanced = within(left, 4_000_000);
    for i in 0..n {
        let h = depth[i];
        let b = base[i];
        let right = carried[i + 1];
        if !cell_fits(bed[i], h, discharge[i], mass[i], b) {
            return Err(Refusal::Values);
        }
        if balanced {
            balanced = carried_fits(h, b, left, right, 0);
        }
        left = right;
    }
    Refusal::Carried.unless(balanced)
}

// The cells, then the walls and the ledger
#[tactic(auto, unfolding(crate::specs::Grounds::first_refusal, crate::specs::Grounds::carried_fit, numbers::specs::Index::all_of))]
pub fn check_plain(
    bed: &[i64],
    depth: &[u64],
    discharge: &[i64],
    mass: &[u64],
    base: &[u64],
    carried: &[i64],
    left_kind: u32,
    right_kind: u32,
    ledger: Ledger,
) -> Result<(), Refusal>
    requires { ColumnLengths (length bed.now) (length depth.now) (length discharge.now) (length mass.now) (length base.now) (length carried.now) }
    ensures { result ≡ first_refusal (ground Refusal.Values (cells_fit bed.now depth.now discharge.now mass.now base.now) ∷ ground Refusal.Carried (carried_fit depth.now base.now carried.now undrawn left_kind right_kind) ∷ ground Refusal.Ledger (ledger_fits ledger) ∷ []) }
{
    check_plain_cells(bed, depth, discharge, mass, base, carried)?;
    Refusal::Carried.unless(walls_fit(carried, depth.len(), left_kind, right_kind))?;
    Refusal::Ledger.unless(ledger_fits(ledger))
}
