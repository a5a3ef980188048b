// The answers in eight bytes each: the kind, the found length, the nodes in use and the value, the lowest bytes first.
use keymap::{Found, MapFault};

// The bytes of an answer.
pub const ANSWER: usize = 8;

// A refusal's number is added to this.
const REFUSED: u8 = 128;

// The kinds of answers, but refusals, by their numbers.
#[derive(Clone, Copy)]
enum Kind {
    Inserted = 0,
    None = 1,
    Exact = 2,
    Ambiguous = 3,
    NeedData = 4,
}

// A kind by its number, with a found length of at most 255 and a value.
#[derive(Clone, Copy)]
pub struct Answer {
    kind: u8,
    len: u8,
    value: u32,
}

fn found(kind: Kind, len: usize, value: u32) -> Answer {
    Answer {
        kind: kind as u8,
        len: len.min(255) as u8,
        value,
    }
}

fn plain(kind: Kind) -> Answer {
    found(kind, 0, 0)
}

impl From<MapFault> for Answer {
    fn from(fault: MapFault) -> Answer {
        Answer {
            kind: REFUSED | fault.number(),
            len: 0,
            value: 0,
        }
    }
}

impl From<Result<(), MapFault>> for Answer {
    fn from(said: Result<(), MapFault>) -> Answer {
        match said {
            Ok(_) => plain(Kind::Inserted),
            Err(fault) => fault.into(),
        }
    }
}

impl From<Result<Found<u32>, MapFault>> for Answer {
    fn from(said: Result<Found<u32>, MapFault>) -> Answer {
        match said {
            Ok(Found::None) => plain(Kind::None),
            Ok(Found::Exact(len, value)) => found(Kind::Exact, len, value),
            Ok(Found::Ambiguous(len, value)) => found(Kind::Ambiguous, len, value),
            Ok(Found::NeedData) => plain(Kind::NeedData),
            Err(fault) => fault.into(),
        }
    }
}

impl Answer {
    // The bytes of the answer, with the number of nodes in use.
    pub(crate) fn to_bytes(self, used: usize) -> [u8; ANSWER] {
        let [used0, used1] = (used.min(65535) as u16).to_le_bytes();
        let [value0, value1, value2, value3] = self.value.to_le_bytes();
        [
            self.kind, self.len, used0, used1, value0, value1, value2, value3,
        ]
    }
}
