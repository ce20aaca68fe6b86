// What a lane's call sees of the line, what it changes, and a change applied to the line.
#![tactic(auto)]

ghost use Rattle.std.specs.Prelude.{◌<◌, true, ◌≡◌, ℕ};
ghost use Rattle.limits.specs.Limits.{most_lanes};
ghost use Rattle.event.specs.Refusal.{number_or_none};
ghost use Rattle.changes.specs.Change.{entry_of, kept_change, missing_lane, outcome_of, refused_change, seen_of, wakes_in};

use event::Refusal;
use lane_tests::tallies::any_gathered;
use limits::MOST_LANES;
use line::{Line, Phase};
use steps::{Answer, Outcome};
use view::Place;

pub mod phases;

// What a lane's call sees: the line's numbers, whether a lane is gathered, and the lane's own phase and flag.
#[derive(Clone, Copy)]
pub struct Seen {
    pub lanes: u8,
    pub capacity: u32,
    pub size: u32,
    pub pointer: Place,
    pub gathering: bool,
    pub phase: Phase,
    pub flag: u8,
}

// What a lane's call gives: its answer, the lane's phase and flag, the pointer and the size after it, and the lane that it wakes.
#[derive(Clone, Copy)]
pub struct Change {
    pub answer: Answer,
    pub phase: Phase,
    pub flag: u8,
    pub pointer: Place,
    pub size: u32,
    pub wakes: Option<u8>,
}

// An answer that leaves the line as it is.
pub fn keep(seen: Seen, answer: Answer) -> Change
    ensures { result ≡ kept_change seen answer }
{
    Change {
        answer,
        phase: seen.phase,
        flag: seen.flag,
        pointer: seen.pointer,
        size: seen.size,
        wakes: None,
    }
}

// A refusal, by a reason or by its number, which leaves the line as it is.
#[inline(always)]
pub fn refuse<R: Into<u8>>(seen: Seen, reason: R) -> Change
    ensures { (k : ℕ) × R.converts reason k × (result ≡ refused_change seen k) }
{
    let number = reason.into();
    keep(seen, Answer::Refused { number })
}

// The tests that come first in any call of a lane: whether the line is open, and whether it has the lane.
#[inline(always)]
pub fn missing_lane(lanes: u8, lane: u8) -> Option<Refusal>
    ensures { number_or_none result ≡ missing_lane lanes lane }
{
    if lanes == 0 {
        return Some(Refusal::NotOpen);
    }
    if lanes <= lane {
        return Some(Refusal::NoSuchLane);
    }
    None
}

// The entry of a lane's number in the arrays: the number itself where a line can have such a lane, and else another entry.
pub fn entry_of(lane: u8) -> usize
    ensures { (result ≡ entry_of lane) × (result < most_lanes) }
{
    usize::from(lane) % MOST_LANES
}

// What a call of this lane sees of the line.
pub fn see(line: Line, lane: u8) -> Seen
    ensures { result ≡ seen_of line (entry_of lane) }
{
    let i = entry_of(lane);
    Seen {
        lanes: line.lanes,
        capacity: line.capacity,
        size: line.size,
        pointer: line.pointer,
        gathering: any_gathered(line.lane),
        phase: line.lane[i].phase,
        flag: line.flag[i],
    }
}

// The line with a change of this lane, and the lane that it wakes woken with the pointer; and the change's answer.
pub fn apply(line: Line, lane: u8, change: Change) -> Outcome
    requires { wakes_in change.wakes ≡ true }
    ensures { result ≡ outcome_of line (entry_of lane) change }
{
    let i = entry_of(lane);
    let mut next = line;
    next.flag[i] = change.flag;
    next.lane[i].phase = change.phase;
    next.pointer = change.pointer;
    next.size = change.size;
    if let Some(number) = change.wakes {
        let woken = usize::from(number);
        next.lane[woken].phase = phases::wake_with(change.pointer, next.lane[woken].phase);
    }
    Outcome {
        line: next,
        answer: change.answer,
    }
}
