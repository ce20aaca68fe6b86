// The calls 02 want, 03 receive, 04 take and 09 free as changes, by a lane of an open line (`lane_calls` gives 4 and 8): the tests in the order of the refusals, then what the call does.
#![tactic(auto)]

ghost use Rattle.std.specs.Prelude.{◌≤◌, ◌≡◌};
ghost use Rattle.limits.specs.Limits.{most_pointer};
ghost use Rattle.line.specs.Line.{place_in};
ghost use Rattle.turn_calls.specs.Turns.{free_change, moved_to, receive_change, released_to, taken_by, taken_change, taken_from, taken_to_read, taken_to_write, want_change, wanted};

use changes::phases::{purpose_of, to_read, to_write};
use changes::{Change, Seen, keep, refuse};
use event::Refusal;
use limits::{MOST_LANES, MOST_POINTER};
use line::{Phase, Purpose};
use steps::Answer;
use view::Place;

// A lane raises its flag: where all others are 0 it holds, with the pointer, and else it waits.
fn raise(seen: Seen, alone: bool, purpose: Purpose) -> Change
    ensures { result ≡ wanted seen alone purpose }
{
    let pointer = seen.pointer;
    if alone {
        return Change {
            phase: Phase::Holding(purpose, pointer),
            flag: 1,
            ..keep(seen, Answer::Holds { pointer })
        };
    }
    Change {
        phase: Phase::Waiting(purpose),
        flag: 1,
        ..keep(seen, Answer::Waits)
    }
}

// 02: an idle lane asks for the book.
pub fn want(seen: Seen, flags: &[u8; MOST_LANES], lane: u8, purpose: u8) -> Change
    ensures { result ≡ want_change seen flags.now lane purpose }
{
    if 2 < purpose {
        return refuse(seen, Refusal::AboveTwo);
    }
    if seen.gathering {
        return refuse(seen, Refusal::LaneGathered);
    }
    if !phase_tests::is_idle(seen.phase) {
        return refuse(seen, Refusal::WrongPhase);
    }
    raise(
        seen,
        waitlist::others_down(flags, lane),
        purpose_of(purpose),
    )
}

// A woken lane holds, with the wake's value.
fn hold(seen: Seen, purpose: Purpose, value: Place) -> Change
    ensures { result ≡ moved_to seen (Answer.Holds value) (Phase.Holding purpose value) seen.flag }
{
    Change {
        phase: Phase::Holding(purpose, value),
        ..keep(seen, Answer::Holds { pointer: value })
    }
}

// 03: a woken lane becomes holding; to a waiting one no wake has come yet.
pub fn receive(seen: Seen) -> Change
    ensures { result ≡ receive_change seen }
{
    match seen.phase {
        Phase::Woken(purpose, value) => hold(seen, purpose, value),
        Phase::Waiting(_) => refuse(seen, Refusal::NoWakeYet),
        _ => refuse(seen, Refusal::WrongPhase),
    }
}

// A release, of 04 and 09: the flag drops, and the next lane is woken with the pointer.
fn release(seen: Seen, answer: Answer, phase: Phase, pointer: Place, wakes: Option<u8>) -> Change
    ensures { result ≡ released_to seen answer phase pointer wakes }
{
    Change {
        phase,
        flag: 0,
        pointer,
        wakes,
        ..keep(seen, answer)
    }
}

// A region of `count` records from a place: the pointer moves past it, and the lane releases.
fn take_region(
    seen: Seen,
    flags: &[u8; MOST_LANES],
    lane: u8,
    start: Place,
    count: u16,
    phase: Phase,
) -> Change
    requires { start.0 ≤ most_pointer }
    ensures { result ≡ taken_change seen flags.now lane start count phase }
{
    let pointer = Place(start.0 + u32::from(count));
    let wakes = waitlist::next_lane(seen.lanes, flags, lane);
    let answer = Answer::Region {
        start,
        count,
        wakes,
    };
    release(seen, answer, phase, pointer, wakes)
}

// The take of a shared write, whose records must fit.
fn take_to_write(
    seen: Seen,
    fitting: bool,
    flags: &[u8; MOST_LANES],
    lane: u8,
    start: Place,
    count: u16,
) -> Change
    requires { start.0 ≤ most_pointer }
    ensures { result ≡ taken_to_write seen fitting flags.now lane start count }
{
    if !fitting {
        return refuse(seen, Refusal::NoRoom);
    }
    take_region(seen, flags, lane, start, count, to_write(count, start))
}

// The take of a shared read, which may run past the capacity; the pointer must stay in its range.
fn take_to_read(seen: Seen, flags: &[u8; MOST_LANES], lane: u8, start: Place, count: u16) -> Change
    requires { start.0 ≤ most_pointer }
    ensures { result ≡ taken_to_read seen flags.now lane start count }
{
    if MOST_POINTER < start.0 + u32::from(count) {
        return refuse(seen, Refusal::PointerOutside);
    }
    take_region(seen, flags, lane, start, count, to_read(count, start))
}

// The take of a lane that holds: of a region for a shared purpose, and refused for the whole book.
fn take_by(
    seen: Seen,
    fitting: bool,
    flags: &[u8; MOST_LANES],
    lane: u8,
    purpose: Purpose,
    start: Place,
    count: u16,
) -> Change
    requires { start.0 ≤ most_pointer }
    ensures { result ≡ taken_by seen fitting flags.now lane purpose start count }
{
    match purpose {
        Purpose::SharedWrite => take_to_write(seen, fitting, flags, lane, start, count),
        Purpose::SharedRead => take_to_read(seen, flags, lane, start, count),
        Purpose::WholeBook => refuse(seen, Refusal::WrongPhase),
    }
}

// 04: a holder for a shared purpose takes a region and releases; `fitting` is whether its records fit from the place that it holds.
pub fn take(seen: Seen, fitting: bool, flags: &[u8; MOST_LANES], lane: u8, count: u16) -> Change
    requires { (place_in seen.phase).0 ≤ most_pointer }
    ensures { result ≡ taken_from seen fitting flags.now lane count seen.phase }
{
    match seen.phase {
        Phase::Holding(purpose, value) => take_by(
            seen, fitting, flags, lane, purpose, value, count,
        ),
        _ => refuse(seen, Refusal::WrongPhase),
    }
}

// 09: a holder of the whole book releases; the pointer is unchanged and carried by the wake.
pub fn free(seen: Seen, flags: &[u8; MOST_LANES], lane: u8) -> Change
    ensures { result ≡ free_change seen flags.now lane }
{
    if !phase_tests::holds_whole(seen.phase) {
        return refuse(seen, Refusal::WrongPhase);
    }
    let wakes = waitlist::next_lane(seen.lanes, flags, lane);
    release(
        seen,
        Answer::Freed { wakes },
        Phase::Idle,
        seen.pointer,
        wakes,
    )
}
