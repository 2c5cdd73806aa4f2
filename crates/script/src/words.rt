// How the words of a call and the bytes of the sheets are read.
ghost use Rattle.std.specs.Prelude.{◌≡◌, [], ◌∷◌, ◌+◌, ◌≤◌, length};
ghost use Rattle.outlet.specs.Outlets.{loaded};
ghost use Rattle.reach.specs.Reach.{with_totals};
ghost use Rattle.tally.specs.Call.{wanting};
ghost use Rattle.script.specs.Script.{boundary_from, wants_from, outlet_from, outlets_from};

use encoding::reading::twos_in;
use outlet::{OUTLETS_MOST, Outlet, Outlets};
use reach::boundary::Boundary;
use reach::held::Held;

fn boundary_from(words: &[u64], at: usize) -> Boundary
    requires { at + 5 ≤ length words.now }
    ensures { result ≡ boundary_from words.now at }
{
    Boundary {
        kind: (words[at] % 4_294_967_296) as u32,
        reserved: (words[at + 1] % 4_294_967_296) as u32,
        depth: words[at + 2],
        concentration: words[at + 3],
        discharge: twos_in(9_223_372_036_854_775_808, words[at + 4]),
    }
}

// The pair of boundaries in the words of the call at `at`
pub fn boundaries_from(words: &[u64], at: usize) -> [Boundary; 2]
    requires { at + 13 ≤ length words.now }
    ensures { result ≡ (boundary_from words.now (at + 3) ∷ boundary_from words.now (at + 8) ∷ []) }
{
    let left = boundary_from(words, at + 3);
    let right = boundary_from(words, at + 8);
    [left, right]
}

fn outlet_from(words: &[u64], at: usize) -> Outlet
    requires { at + 5 ≤ length words.now }
    ensures { result ≡ outlet_from words.now at }
{
    Outlet {
        cell: words[at],
        want: words[at + 1],
        drawn: words[at + 2],
        water: words[at + 3],
        mass: words[at + 4],
    }
}

// The list of outlets from `at` on, by value: its count, above 32 too, and the first 32
pub fn outlets_from(words: &[u64], at: usize) -> Outlets
    requires { at + 161 ≤ length words.now }
    ensures { result ≡ loaded (outlets_from words.now at) }
{
    let count = words[at] as usize;
    let n = count.min(OUTLETS_MOST);
    let mut room = [Outlet::default(); 32];
    for (k, o) in room[..n].iter_mut().enumerate() {
        *o = outlet_from(words, at + 1 + 5 * k);
    }
    Outlets { count, list: room }
}

// The list with the wants from `at` on
fn wanting_from(words: &[u64], at: usize, outlets: Outlets) -> Outlets
    requires { at + 32 ≤ length words.now }
    ensures { result ≡ wanting (wants_from words.now at) outlets }
{
    let count = outlets.count;
    let n = count.min(OUTLETS_MOST);
    let mut list = outlets.list;
    for (k, o) in list[..n].iter_mut().enumerate() {
        o.want = words[at + k];
    }
    Outlets { count, list }
}

// What is held, with the wants of the call at `at`
pub fn with_wants(words: &[u64], at: usize, held: Held) -> Held
    requires { at + 206 ≤ length words.now }
    ensures { result ≡ with_totals held.ledger (wanting (wants_from words.now (at + 13)) held.outlets) held }
{
    Held {
        outlets: wanting_from(words, at + 13, held.outlets),
        ..held
    }
}
