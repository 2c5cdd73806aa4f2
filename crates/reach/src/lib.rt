// The record of a reach, and the checks that every call on a record starts with (document 01, 'What a record holds' and
// 'Grounds for refusal', 4 to 9; document 02, point 1, 16).
//
// A record is lent as six columns: bed level z, depth h, discharge q, mass m and base depth b of each cell, and carried water c of each
// interface. With them travel the cell length X, both boundaries as one value, the ledger and the outlets.
#![tactic(auto)]

pub mod boundary;
pub mod carried;
pub mod cells;
pub mod held;
pub mod ledger;
pub mod outlets;
pub mod plain;
pub mod refusal;

ghost use Rattle.std.specs.Prelude.{◌≡◌};
ghost use Rattle.reach.specs.Reach.{came};
ghost use Rattle.reach.specs.Grounds.{record_grounds, first_refusal};

use boundary::{Boundary, check_boundaries};
use carried::check_carried;
use cells::{check_cell_length, check_cells, check_lengths};
use held::{Held, check_totals};
use outlets::check_outlets;
use plain::check_plain;
use refusal::Refusal;

// Grounds 4 to 7, 16, 8 and 9: the checking order of every call on a record. A call that is given a new pair of boundaries has it checked as `given`; any other gives the pair
// that it holds.
#[tactic(auto, unfolding(crate::specs::Grounds::first_refusal))]
pub fn check_record(
    bed: &[i64],
    depth: &[u64],
    discharge: &[i64],
    mass: &[u64],
    base: &[u64],
    carried: &[i64],
    x: u64,
    held: Held,
    given: [Boundary; 2],
) -> Result<(), Refusal>
    ensures { result ≡ first_refusal (record_grounds (came bed.now depth.now discharge.now mass.now base.now carried.now x held) given) }
{
    check_lengths(bed, depth, discharge, mass, base, carried)?;
    check_cell_length(x)?;
    check_boundaries(held.boundaries)?;
    check_boundaries(given)?;
    if held.outlets.count == 0 {
        let ledger = held.ledger;
        return check_plain(
            bed,
            depth,
            discharge,
            mass,
            base,
            carried,
            held.boundaries[0].kind,
            held.boundaries[1].kind,
            ledger,
        );
    }
    check_cells(bed, depth, discharge, mass, base)?;
    let outlets = held.outlets;
    check_outlets(bed.len(), outlets)?;
    check_carried(
        depth,
        base,
        carried,
        outlets,
        held.boundaries[0].kind,
        held.boundaries[1].kind,
    )?;
    check_totals(held)
}
