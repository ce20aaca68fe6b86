// Events: a kind and the fields of that kind's body; and why an event or a call is refused.
#![tactic(auto)]

ghost use Rattle.std.specs.Prelude.{◌≡◌};
ghost use Rattle.event.specs.Refusal.{number_of};

use limits::MOST_BLOCKS;
use view::{Block, Place};

// An event: the kinds 01 to 0C in order, with the fields in the body's order, and a case for any other kind.
// `content` is a record as a number; `used` is the number of blocks in use.
// Purpose and whence are bytes: a sheet may hold any, which are read and written back, and one above 2 is refused when the call is made.
#[derive(Clone, Copy, Debug, PartialEq, Eq)]
pub enum Event {
    Open {
        lanes: u8,
        capacity: u32,
    },
    Want {
        lane: u8,
        purpose: u8,
    },
    Receive {
        lane: u8,
    },
    Take {
        lane: u8,
        count: u16,
    },
    Write {
        lane: u8,
        content: u64,
    },
    Read {
        lane: u8,
    },
    Put {
        lane: u8,
        place: Place,
        content: u64,
    },
    Look {
        lane: u8,
        place: Place,
    },
    Free {
        lane: u8,
    },
    Enter {
        lane: u8,
        count: u16,
    },
    View {
        displacement: u32,
        extent: u16,
        used: u8,
        blocks: [Block; MOST_BLOCKS],
    },
    Seek {
        whence: u8,
        offset: i32,
    },
    Unlisted,
}

// How far a sheet has been read: the byte at which the next event starts.
#[derive(Clone, Copy, Debug, PartialEq, Eq)]
pub struct Cursor {
    pub at: usize,
}

// What reading at a cursor finds: an event and the cursor past it, none at the sheet's end, or a refusal (2 or 3).
pub type Reading = Result<Option<(Event, Cursor)>, Refusal>;

// What writing an event gives: its length in bytes, or a refusal (2 or 3).
pub type Writing = Result<usize, Refusal>;

// Why an event or a call is refused. The lowest number that applies is given; the last reason is a report's or a sheet's, and no call's.
#[derive(Clone, Copy, Debug, PartialEq, Eq)]
pub enum Refusal {
    // The line handed in is not sound.
    NotSound = 1,
    // The kind is not 01 to 0C.
    UnlistedKind = 2,
    // The body is cut short, or the buffer lent for writing an event is too short for it.
    CutShort = 3,
    // A call other than an opening comes before the line is open.
    NotOpen = 4,
    // An opening comes to an open line.
    AlreadyOpen = 5,
    // The lanes of an opening are out of their range.
    LanesOutside = 6,
    // The capacity of an opening is out of its range, or exceeds the book lent.
    CapacityOutside = 7,
    // The lane is none of the line's.
    NoSuchLane = 8,
    // The purpose or the whence is above 2.
    AboveTwo = 9,
    // The view breaks a rule of views.
    ViewBreaksRule = 10,
    // A lane is not idle (to enter, neither idle nor gathered).
    LaneNotIdle = 11,
    // A turn is wanted while a lane is gathered.
    LaneGathered = 12,
    // The lane's phase or purpose does not allow the call.
    WrongPhase = 13,
    // A waiting lane that has no wake yet would receive it.
    NoWakeYet = 14,
    // The pointer would be put below 0 or above its greatest value.
    PointerOutside = 15,
    // The records do not fit the book.
    NoRoom = 16,
    // A number of the report lent or the sheet is too large.
    TooLarge = 17,
}

impl Refusal {
    // The reason's number, as programs print it and answers hold it.
    pub fn number(self) -> u8
        ensures { result ≡ number_of self }
    {
        self as u8
    }
}

impl From<Refusal> for u8 {
    ghost from_gives = { λ refusal number. number ≡ number_of refusal };

    fn from(refusal: Refusal) -> u8 {
        refusal.number()
    }
}
