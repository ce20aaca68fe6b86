// The call 0A enter: a lane enters an ordered call, and the last one to enter starts all of them. A few numbers decide it. The line is sound: the entries test that.
#![tactic(auto)]

ghost use Rattle.std.specs.Prelude.{◌+◌, ◌≤◌, Ok, true, ◌≡◌, length};
ghost use Rattle.limits.specs.Limits.{most_pointer};
ghost use Rattle.line.specs.Sound.{sound};
ghost use Rattle.event.specs.declared.Event.{Event};
ghost use Rattle.steps.specs.Effects.{started, started_at};
ghost use Rattle.steps.specs.Meets.{Meets, state_of};
ghost use Rattle.steps.specs.Step.{call_event};
ghost use Rattle.ordered_calls.specs.Settled.{IdlePast, admitted, completed, settled};

use changes::missing_lane;
use changes::phases::to_write;
use event::Refusal;
use lane_tests::tallies::counts_of;
use limits::MOST_LANES;
use line::{Lane, Line, Phase};
use refuse::refuse;
use steps::{Answer, Outcome};
use view::Place;

// What an enter that is not refused comes to.
#[derive(Clone, Copy, Debug, PartialEq, Eq)]
pub enum Entered {
    Gathered,
    Complete,
}

// 11 unless all lanes are idle or gathered, 13 unless this one is idle, 16 unless its records fit after those gathered; complete with the last lane.
#[inline(always)]
pub fn admit(phase: Phase, calm: bool, fitting: bool, last: bool) -> Result<Entered, Refusal>
    ensures { result ≡ admitted phase calm fitting last }
{
    if !calm {
        return Err(Refusal::LaneNotIdle);
    }
    if !phase_tests::is_idle(phase) {
        return Err(Refusal::WrongPhase);
    }
    if !fitting {
        return Err(Refusal::NoRoom);
    }
    if last {
        return Ok(Entered::Complete);
    }
    Ok(Entered::Gathered)
}

// A gathered lane starts at a place; the others stay as they are.
fn start_at(phase: Phase, at: u32) -> Phase
    ensures { result ≡ started_at at phase }
{
    match phase {
        Phase::Gathered(count) => to_write(count, Place(at)),
        _ => phase,
    }
}

// "lane r gets pointer + the counts of lanes below r": the first n lanes, past which all are idle.
pub fn start_all(lanes: [Lane; MOST_LANES], n: u8, pointer: u32) -> [Lane; MOST_LANES]
    requires { (pointer ≤ most_pointer) × IdlePast n lanes }
    ensures { result ≡ started pointer lanes }
{
    let mut started = lanes;
    let mut at = pointer;
    for r in 0..usize::from(n) {
        let phase = started[r].phase;
        started[r].phase = start_at(phase, at);
        at += u32::from(phase_tests::count_in(phase));
    }
    started
}

// All N lanes are in, with `total` records: each starts after those below it.
fn complete(line: Line, lanes: [Lane; MOST_LANES], total: u32) -> Outcome
    requires { (line.pointer.0 + total ≤ most_pointer) × IdlePast line.lanes lanes }
    ensures { result ≡ completed line lanes total }
{
    let before = line.pointer;
    Outcome {
        line: Line {
            pointer: Place(before.0 + total),
            lane: start_all(lanes, line.lanes, before.0),
            ..line
        },
        answer: Answer::Ordered { before, total },
    }
}

// What an enter leaves, with the lanes as they are once this one is in: the line as it is, these lanes, or all of them started.
fn settle(
    line: Line,
    lanes: [Lane; MOST_LANES],
    total: u32,
    came: Result<Entered, Refusal>,
) -> Outcome
    requires { (came ≡ Ok Entered.Complete → line.pointer.0 + total ≤ most_pointer) × IdlePast line.lanes lanes }
    ensures { result ≡ settled line lanes total came }
{
    match came {
        Err(reason) => refuse(line, reason),
        Ok(Entered::Gathered) => Outcome {
            line: Line {
                lane: lanes,
                ..line
            },
            answer: Answer::Gathered,
        },
        Ok(Entered::Complete) => complete(line, lanes, total),
    }
}

// 0A: an idle lane becomes gathered; when all N are in, each starts after those below it.
pub fn enter(line: Line, book: &[u8], lane: u8, count: u16) -> Outcome
    requires { sound line (length book.now) ≡ true }
    ensures { Meets (call_event (state_of line book.now) (Event.Enter lane count)) result book.now }
{
    if let Some(reason) = missing_lane(line.lanes, lane) {
        return refuse(line, reason);
    }
    let i = usize::from(lane);
    let counts = counts_of(line.lane);
    let total = counts.total + u32::from(count);
    let calm = counts.active == counts.gathered;
    let fitting = line.view.fits(line.capacity, line.pointer, total);
    let last = counts.gathered + 1 == u32::from(line.lanes);
    let came = admit(line.lane[i].phase, calm, fitting, last);
    let mut lanes = line.lane;
    lanes[i].phase = Phase::Gathered(count);
    settle(line, lanes, total, came)
}
