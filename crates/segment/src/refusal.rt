// Why a request is refused: the refusals of document 01 and of request 7, a case for each, with its number and its place.
// Above: every crate that refuses, from the checks of a segment to the entries of a bench and its archive. Below: nothing.
ghost use Rattle.std.specs.Prelude.{◌≡◌};
ghost use Rattle.segment.specs.Refusals.{number_of, place_of};

// 1 to 8 are of a segment, 9 and 10 of turning it, 11 to 17 of a bench, 23 of an archive; 6 to 8 hold the routine's number.
#[derive(Clone, Copy, Debug, PartialEq, Eq)]
pub enum Refusal {
    Length,
    Sex,
    Relocation,
    Pool,
    Dictionary,
    Entry(u16),
    Datasize(u16),
    Exitic(u16),
    HasPool,
    ShortOutput,
    Unsound,
    NotThere,
    RegionLength,
    NoRecord,
    NoGap,
    TooManySteps,
    Limits,
    NotArchive,
}

impl Refusal {
    // The paper's number.
    pub fn number(self) -> u8
        ensures { result ≡ number_of self }
    {
        match self {
            Refusal::Length => 1,
            Refusal::Sex => 2,
            Refusal::Relocation => 3,
            Refusal::Pool => 4,
            Refusal::Dictionary => 5,
            Refusal::Entry(_) => 6,
            Refusal::Datasize(_) => 7,
            Refusal::Exitic(_) => 8,
            Refusal::HasPool => 9,
            Refusal::ShortOutput => 10,
            Refusal::Unsound => 11,
            Refusal::NotThere => 12,
            Refusal::RegionLength => 13,
            Refusal::NoRecord => 14,
            Refusal::NoGap => 15,
            Refusal::TooManySteps => 16,
            Refusal::Limits => 17,
            Refusal::NotArchive => 23,
        }
    }

    // The routine's number of 6 to 8, else 0.
    pub fn place(self) -> u16
        ensures { result ≡ place_of self }
    {
        match self {
            Refusal::Entry(k) | Refusal::Datasize(k) | Refusal::Exitic(k) => k,
            _ => 0,
        }
    }
}
