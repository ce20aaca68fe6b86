// A call given as an event, and a call given as a kind and body bytes: every entry goes through the first. None requires anything.
#![tactic(auto)]

ghost use Rattle.std.specs.Prelude.{true, ◌≡◌, length};
ghost use Rattle.line.specs.Sound.{sound};
ghost use Rattle.event.specs.Refusal.{number_of};
ghost use Rattle.scopes.specs.Scope.{lane_event};
ghost use Rattle.steps.specs.Meets.{Meets, state_of};
ghost use Rattle.steps.specs.Step.{call_bytes, call_event};
ghost use Rattle.event_calls.specs.Refused.{refused_bytes};

use changes::{apply, see};
use event::{Event, Refusal};
use lane_calls::decide;
use line::Line;
use line_calls::call_line;
use refuse::refuse;
use scopes::{LaneCall, Scope, scope_of};
use soundness::is_sound;
use steps::Outcome;

// The call of a lane on a sound line: what it sees, what it changes, and the change applied.
fn call_lane(line: Line, book: &mut [u8], lane: u8, call: LaneCall) -> Outcome
    requires { sound line (length book.old) ≡ true }
    ensures { Meets (call_event (state_of line book.old) (lane_event lane call)) result book.new }
{
    let seen = see(line, lane);
    let change = decide(seen, lane, line.view, &line.flag, book, call);
    apply(line, lane, change)
}

// A call given as an event; an event of an unlisted kind is refused with 2.
pub fn call_event(line: Line, book: &mut [u8], event: Event) -> Outcome
    ensures { Meets (call_event (state_of line book.old) event) result book.new }
{
    if !is_sound(line, book.len()) {
        return refuse(line, Refusal::NotSound);
    }
    match scope_of(event) {
        Scope::Lane { lane, call } => call_lane(line, book, lane, call),
        Scope::Line { call } => call_line(line, book, call),
        Scope::Unlisted => refuse(line, Refusal::UnlistedKind),
    }
}

// A call that has no event: refused with 1 on an unsound line, and else with the number of what is wrong with its bytes.
fn refuse_bytes(line: Line, book: &[u8], reason: Refusal) -> Outcome
    ensures { result ≡ refused_bytes line (length book.now) (number_of reason) }
{
    if !is_sound(line, book.len()) {
        return refuse(line, Refusal::NotSound);
    }
    refuse(line, reason)
}

// A call given as a kind and body bytes; bytes past the body are not looked at.
pub fn call_bytes(line: Line, book: &mut [u8], kind: u8, body: &[u8]) -> Outcome
    ensures { Meets (call_bytes (state_of line book.old) kind body.now) result book.new }
{
    match decode::read_body(kind, body, 0) {
        Ok(Some((event, _))) => call_event(line, book, event),
        Ok(None) => refuse_bytes(line, book, Refusal::UnlistedKind),
        Err(reason) => refuse_bytes(line, book, reason),
    }
}
