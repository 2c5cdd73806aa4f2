// What the C functions are given and answer by value: all that is held but the outlets, which are lent. A refusal is its number, 0 for none, as C has it.
ghost use Rattle.std.specs.Prelude.{◌≡◌};
ghost use Rattle.reach.specs.Reach.{held_with};
ghost use Rattle.jemmyfern_c.specs.Answers.{opened_of, stepped_of, transported_of, greatest_of, written_of};

use outlet::{Outlet, Outlets};
use reach::boundary::Boundary;
use reach::held::Held;
use reach::ledger::Ledger;
use sheet::opening::OpenAnswer;
use stepping::step::StepAnswer;
use timestep::GreatestAnswer;
use transport::TransportAnswer;
use writing::write::WriteAnswer;

// Both boundaries, left and right, as C passes them
#[repr(C)]
#[derive(Clone, Copy)]
pub struct Boundaries {
    pub boundaries: [Boundary; 2],
}

// Of a transport, a setting of boundaries and a write
#[repr(C)]
#[derive(Clone, Copy)]
pub struct Answer {
    pub refusal: u32,
    pub boundaries: [Boundary; 2],
    pub ledger: Ledger,
}

#[repr(C)]
#[derive(Clone, Copy)]
pub struct Opened {
    pub refusal: u32,
    pub cell_length: u64,
    pub boundaries: [Boundary; 2],
    pub ledger: Ledger,
}

#[repr(C)]
#[derive(Clone, Copy)]
pub struct Stepped {
    pub refusal: u32,
    pub boundaries: [Boundary; 2],
    pub ledger: Ledger,
    pub transported: bool,
}

#[repr(C)]
#[derive(Clone, Copy)]
pub struct Greatest {
    pub refusal: u32,
    pub boundaries: [Boundary; 2],
    pub ledger: Ledger,
    pub time: u64,
    pub place: usize,
}

// An array that is a field goes through a variable here and below: read in place into a literal it gets no proof.
pub fn given_held(boundaries: Boundaries, ledger: Ledger, outlets: Outlets) -> Held
    ensures { result ≡ held_with boundaries.boundaries ledger outlets }
{
    let pair = boundaries.boundaries;
    Held {
        boundaries: pair,
        ledger,
        outlets,
    }
}

pub fn room_of(held: Held) -> [Outlet; 32]
    ensures { result ≡ held.outlets.list }
{
    held.outlets.list
}

impl From<OpenAnswer> for Opened {
    ghost from_gives = { λ a r. r ≡ opened_of a };

    fn from(a: OpenAnswer) -> Opened {
        let boundaries = a.held.boundaries;
        Opened {
            refusal: a.refusal,
            cell_length: a.cell_length,
            boundaries,
            ledger: a.held.ledger,
        }
    }
}

impl From<StepAnswer> for Stepped {
    ghost from_gives = { λ a r. r ≡ stepped_of a };

    fn from(a: StepAnswer) -> Stepped {
        let boundaries = a.held.boundaries;
        Stepped {
            refusal: a.refusal,
            boundaries,
            ledger: a.held.ledger,
            transported: a.transported,
        }
    }
}

impl From<TransportAnswer> for Answer {
    ghost from_gives = { λ a r. r ≡ transported_of a };

    fn from(a: TransportAnswer) -> Answer {
        let boundaries = a.held.boundaries;
        Answer {
            refusal: a.refusal,
            boundaries,
            ledger: a.held.ledger,
        }
    }
}

impl From<GreatestAnswer> for Greatest {
    ghost from_gives = { λ a r. r ≡ greatest_of a };

    fn from(a: GreatestAnswer) -> Greatest {
        let boundaries = a.held.boundaries;
        Greatest {
            refusal: a.refusal,
            boundaries,
            ledger: a.held.ledger,
            time: a.time,
            place: a.place,
        }
    }
}

impl From<WriteAnswer> for Answer {
    ghost from_gives = { λ a r. r ≡ written_of a };

    fn from(a: WriteAnswer) -> Answer {
        let boundaries = a.held.boundaries;
        Answer {
            refusal: a.refusal,
            boundaries,
            ledger: a.held.ledger,
        }
    }
}
