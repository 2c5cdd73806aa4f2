// The ledger, the paper's 'book': what passed each boundary since opening, and its part of ground 9.
ghost use Rattle.std.specs.Prelude.{◌≡◌};
ghost use Rattle.reach.specs.Grounds.{totals_fit, ledger_fits};

// Water in micrometres of depth, mass in the paper's 'grains' (one micrometre of depth at concentration 1)
#[repr(C)]
#[derive(Clone, Copy, Default)]
pub struct Totals {
    pub water_in: u64,
    pub water_out: u64,
    pub mass_in: u64,
    pub mass_out: u64,
}

#[repr(C)]
#[derive(Clone, Copy, Default)]
pub struct Ledger {
    pub left: Totals,
    pub right: Totals,
}

const MOST: u64 = 1_000_000_000_000_000_000;

#[tactic(auto, unfolding(crate::specs::Grounds::totals_fit, numbers::specs::Index::all_of))]
fn totals_fit(t: Totals) -> bool
    ensures { result ≡ totals_fit t }
{
    t.water_in <= MOST && t.water_out <= MOST && t.mass_in <= MOST && t.mass_out <= MOST
}

#[tactic(auto, unfolding(crate::specs::Grounds::ledger_fits, numbers::specs::Index::all_of))]
pub fn ledger_fits(k: Ledger) -> bool
    ensures { result ≡ ledger_fits k }
{
    totals_fit(k.left) && totals_fit(k.right)
}
