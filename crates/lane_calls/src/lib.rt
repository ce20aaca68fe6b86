// The calls 02 to 09, which change one lane, the line's numbers and the lane that is woken, each as a change; used by the calls on a line.
// The run of a sheet decides by the same functions below this (turn_calls, record_calls), with the view's table (sheet_calls).
#![tactic(auto)]

ghost use Rattle.std.specs.Prelude.{◌≡◌, length};
ghost use Rattle.view.specs.View.{Positioned};
ghost use Rattle.line.specs.Line.{place_in};
ghost use Rattle.changes.specs.Change.{Within};
ghost use Rattle.turn_calls.specs.Turns.{take_fits};
ghost use Rattle.lane_calls.specs.Decided.{Decision, decided_change, decided_at};

use changes::{Change, Seen, missing_lane, refuse};
use limits::MOST_LANES;
use scopes::LaneCall;
use view::{Position, View};

// Whether the records of a take fit from the place that the lane holds.
fn take_fits(seen: Seen, view: View, count: u16) -> bool
    ensures { result ≡ take_fits view seen count }
{
    view.fits(
        seen.capacity,
        phase_tests::place_in(seen.phase),
        u32::from(count),
    )
}

// Where the next record of a busy lane stands.
fn next_position(seen: Seen, view: View) -> Position
    ensures { Positioned view (place_in seen.phase) result }
{
    view.position(phase_tests::place_in(seen.phase))
}

// What a lane's call changes past the tests of its lane; a record that is put is stored in the book.
fn decide_at(
    seen: Seen,
    lane: u8,
    view: View,
    flags: &[u8; MOST_LANES],
    book: &mut [u8],
    call: LaneCall,
) -> Change
    requires { Within seen view (length book.old) }
    ensures { Decision (decided_at seen lane view flags.now book.old call) call book.old result book.new }
{
    match call {
        LaneCall::Want { purpose } => turn_calls::want(seen, flags, lane, purpose),
        LaneCall::Receive => turn_calls::receive(seen),
        LaneCall::Take { count } => turn_calls::take(
            seen,
            take_fits(seen, view, count),
            flags,
            lane,
            count,
        ),
        LaneCall::Write { content } => {
            let change = record_calls::write(seen, next_position(seen, view));
            record_calls::store(book, change.answer, content);
            change
        }
        LaneCall::Read => record_calls::read(seen, next_position(seen, view), book),
        LaneCall::Put { place, content } => {
            let change = record_calls::put(seen, view.position(place));
            record_calls::store(book, change.answer, content);
            change
        }
        LaneCall::Look { place } => record_calls::look(seen, view.position(place), book),
        LaneCall::Free => turn_calls::free(seen, flags, lane),
    }
}

// What a call of this lane changes: 4 before the line is open, and 8 where the line has no such lane, come before what its kind tests.
pub fn decide(
    seen: Seen,
    lane: u8,
    view: View,
    flags: &[u8; MOST_LANES],
    book: &mut [u8],
    call: LaneCall,
) -> Change
    requires { Within seen view (length book.old) }
    ensures { Decision (decided_change seen lane view flags.now book.old call) call book.old result book.new }
{
    if let Some(reason) = missing_lane(seen.lanes, lane) {
        return refuse(seen, reason);
    }
    decide_at(seen, lane, view, flags, book, call)
}
