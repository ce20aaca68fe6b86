// The line: its lanes with their phases, the flags, the shared pointer and the view.
#![tactic(auto)]

ghost use Rattle.std.specs.Prelude.{◌≡◌};
ghost use Rattle.line.specs.Line.{idle_lane, unopened};

use limits::MOST_LANES;
use view::{Place, View};

// What a lane wants the book for.
#[derive(Clone, Copy, Debug, PartialEq, Eq)]
pub enum Purpose {
    SharedWrite,
    SharedRead,
    WholeBook,
}

// A lane's phase; a busy lane has a region: the records left and then the next place, in which order a lane takes 8 bytes.
#[derive(Clone, Copy, Debug, PartialEq, Eq)]
pub enum Phase {
    Idle,
    Waiting(Purpose),
    Woken(Purpose, Place),
    Holding(Purpose, Place),
    BusyWriting { left: u16, next: Place },
    BusyReading { left: u16, next: Place },
    Gathered(u16),
}

// A lane (a process of source document 001).
#[derive(Clone, Copy, Debug, PartialEq, Eq)]
pub struct Lane {
    pub phase: Phase,
}

// The line: N in `lanes`, capacity and size in bytes, and an entry of `lane` and of `flag` for each lane that there could be.
#[derive(Clone, Copy, Debug, PartialEq, Eq)]
pub struct Line {
    pub lanes: u8,
    pub capacity: u32,
    pub size: u32,
    pub pointer: Place,
    pub view: View,
    pub lane: [Lane; MOST_LANES],
    pub flag: [u8; MOST_LANES],
}

impl Lane {
    // A lane that wants nothing.
    pub fn idle() -> Lane
        ensures { result ≡ idle_lane }
    {
        Lane { phase: Phase::Idle }
    }
}

impl Line {
    // The line before 01: no lanes, and the plain view.
    pub fn unopened() -> Line
        ensures { result ≡ unopened }
    {
        Line {
            lanes: 0,
            capacity: 0,
            size: 0,
            pointer: Place(0),
            view: View::PLAIN,
            lane: [Lane::idle(); MOST_LANES],
            flag: [0; MOST_LANES],
        }
    }
}
