// Outlets along the reach (document 02, point 1), and the list of them that a caller lends.
#![tactic(auto)]

pub mod clearing;

ghost use Rattle.std.specs.Prelude.{◌≡◌, ◌<◌, length, get_or, set};
ghost use Rattle.outlet.specs.Outlets.{no_outlet, no_outlets, over, loaded};

// What an outlet draws in a step is depth of its cell, micrometres; its totals run since the opening
#[repr(C)]
#[derive(Clone, Copy, Default)]
pub struct Outlet {
    // counted from 0
    pub cell: u64,
    // the depth that it wants per step
    pub want: u64,
    // what it has drawn since the last transport
    pub drawn: u64,
    // all that it has drawn
    pub water: u64,
    // and the mass that went with it, the paper's 'nutrient', in grains
    pub mass: u64,
}

// The outlets of a list
pub const OUTLETS_MOST: usize = 32;

// A lent list by value, as a call looks at it: how many were lent, and the first 32 of them. An array and not a Vec, since no call allocates; its count may
// be above 32, which is what a call refuses. Each function that changes the list has its own loop: one for all, with a closure, would take and give 1,288 bytes by value.
#[repr(C)]
#[derive(Clone, Copy)]
pub struct Outlets {
    pub count: usize,
    pub list: [Outlet; 32],
}

// An empty list, for a caller that lends no outlet
pub fn no_outlets() -> Outlets
    ensures { result ≡ no_outlets }
{
    // written out: what a derived Default says of an array does not prove the contract
    Outlets {
        count: 0,
        list: [Outlet::default(); 32],
    }
}

// A lent list by value
pub fn load(list: &[Outlet]) -> Outlets
    ensures { result ≡ loaded list.now }
{
    let count = list.len();
    let n = count.min(OUTLETS_MOST);
    let mut room = [Outlet::default(); 32];
    room[..n].copy_from_slice(&list[..n]);
    Outlets { count, list: room }
}

// Writes the first 32 entries of a lent list
pub fn store(list: &mut [Outlet], room: [Outlet; 32])
    ensures { list.new ≡ over room list.old }
{
    let n = list.len().min(OUTLETS_MOST);
    list[..n].copy_from_slice(&room[..n]);
}
