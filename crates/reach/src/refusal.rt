// Why a call is refused: the grounds of document 01, 'Grounds for refusal', and of document 02, 16 and 17, each with the paper's number.
ghost use Rattle.std.specs.Prelude.{◌≡◌};
ghost use Rattle.reach.specs.Refusals.{number};
ghost use Rattle.reach.specs.Grounds.{pass_or};

#[derive(Clone, Copy, Debug, PartialEq, Eq)]
pub enum Refusal {
    Edition = 1,
    Size = 2,
    Layout = 3,
    Lengths = 4,
    CellLength = 5,
    Boundaries = 6,
    Values = 7,
    Carried = 8,
    Ledger = 9,
    TimeStep = 10,
    Cfl = 11,
    Depth = 12,
    Total = 13,
    NotTransported = 14,
    ShortOutput = 15,
    Outlets = 16,
    Strickler = 17,
}

// The number that an answer gives, where 0 is none
impl From<Refusal> for u32 {
    ghost from_gives = { λ r n. n ≡ number r };

    fn from(r: Refusal) -> u32 {
        r as u32
    }
}

impl Refusal {
    // The answer of a check of this ground
    pub fn unless(self, stands: bool) -> Result<(), Refusal>
        ensures { result ≡ pass_or self stands }
    {
        if stands { Ok(()) } else { Err(self) }
    }
}
