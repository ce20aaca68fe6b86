// The answers to calls. What each call does is defined in specs/; the functions are in the crates above.
#![tactic(auto)]

use line::Line;
use view::{Place, Position};

// The answer to a call, a case for each word that is printed, and a refusal with its number. `content` is a record, as a number.
#[derive(Clone, Copy, Debug, PartialEq, Eq)]
pub enum Answer {
    Open {
        lanes: u8,
        capacity: u32,
    },
    Holds {
        pointer: Place,
    },
    Waits,
    Region {
        start: Place,
        count: u16,
        wakes: Option<u8>,
    },
    Wrote {
        position: Position,
    },
    Record {
        content: u64,
    },
    None,
    Freed {
        wakes: Option<u8>,
    },
    Gathered,
    Ordered {
        before: Place,
        total: u32,
    },
    View,
    Seek {
        pointer: Place,
    },
    // A number and no `Refusal`: answers of any number are printed and stored.
    Refused {
        number: u8,
    },
}

// What a call gives: the line as it leaves it, and its answer.
#[derive(Clone, Copy, Debug, PartialEq, Eq)]
pub struct Outcome {
    pub line: Line,
    pub answer: Answer,
}
