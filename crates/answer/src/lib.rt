// What a call answers: the number and the place of its first refusal, or 0 and the bytes that it wrote.
// The numbers are those of document 01's table. What C calls answers by `Answer`; readers inside the library by a `Result` with a
// `Fault`, whose place is a place of a slice.
#![tactic(auto)]

ghost use Rattle.std.specs.Prelude.{◌≡◌};
ghost use Rattle.answer.specs.Calls.{fault_of, outcome_of, verdict, count_answer, asked};
ghost use Rattle.answer.specs.Refusals.{number_of};
ghost use Rattle.answer.specs.Outcome.{room};

pub const TAKEN: u32 = 0;

// The refusals of document 01's table, each by its number there; 0 is the number of a call that refuses nothing.
#[derive(Clone, Copy, Debug, PartialEq, Eq)]
pub enum Refusal {
    Short = 1,
    Magic = 2,
    Version = 3,
    Endian = 4,
    Reserved = 5,
    Size = 6,
    Cut = 7,
    Many = 8,
    Twice = 9,
    Secver = 10,
    Shape = 11,
    Limit = 12,
    Key = 13,
    Text = 14,
    Value = 15,
    Room = 16,
    Have = 17,
    Tag = 18,

    // The rings' own (request 1 of document 02).
    Region = 20,
    Big = 21,
    Full = 22,
    Empty = 23,
    Record = 24,

    // Of a removal or a replacement (request 3).
    Absent = 25,

    // Of many devices at once (request 8).
    Payload = 26,

    // Of an edit beside an untrue card (request 12).
    Card = 28,

    // The rings' last.
    Turn = 29,
}

impl From<Refusal> for u32 {
    ghost from_gives = { λ r n. n ≡ number_of r };

    fn from(r: Refusal) -> u32 {
        r as u32
    }
}

// Why a call refuses, and the place where.
#[derive(Clone, Copy, Debug, PartialEq, Eq)]
pub struct Fault(pub Refusal, pub usize);

// What C is told: the number and the place of the first refusal, or 0 and the bytes written.
#[repr(C)]
#[derive(Clone, Copy)]
pub struct Answer {
    pub number: u32,
    pub place: u64,
}

// The answer of a call that refuses.
impl From<Fault> for Answer {
    ghost from_gives = { λ f a. a ≡ count_answer (fault_of f) };

    fn from(f: Fault) -> Answer {
        Answer {
            number: u32::from(f.0),
            place: f.1 as u64,
        }
    }
}

// The answer of a call that has nothing to write.
impl From<Result<(), Fault>> for Answer {
    ghost from_gives = { λ r a. a ≡ verdict (outcome_of r) };

    fn from(r: Result<(), Fault>) -> Answer {
        Answer::from(r.map(|()| 0usize))
    }
}

// The answer of a call that writes: how many bytes it wrote.
impl From<Result<usize, Fault>> for Answer {
    ghost from_gives = { λ r a. a ≡ count_answer (outcome_of r) };

    fn from(r: Result<usize, Fault>) -> Answer {
        match r {
            Ok(written) => Answer {
                number: TAKEN,
                place: written as u64,
            },
            Err(f) => Answer::from(f),
        }
    }
}

// Whether `have` bytes of output hold the `need` that are to be written: the last check of each call that writes.
pub fn roomy(have: usize, need: usize) -> Result<(), Fault>
    ensures { outcome_of result ≡ asked (room have need) }
{
    if have < need {
        return Err(Fault(Refusal::Room, need));
    }
    Ok(())
}
