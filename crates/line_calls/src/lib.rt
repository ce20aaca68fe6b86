// The calls that can change the whole line: 01, 0A, 0B and 0C. The line is sound: the entries test that.
#![tactic(auto)]

ghost use Rattle.std.specs.Prelude.{true, ◌≡◌, length};
ghost use Rattle.line.specs.Sound.{sound};
ghost use Rattle.event.specs.Refusal.{number_or_none};
ghost use Rattle.scopes.specs.Scope.{line_event};
ghost use Rattle.steps.specs.Meets.{Meets, state_of};
ghost use Rattle.steps.specs.Step.{call_event};
ghost use Rattle.line_calls.specs.Refusal.{line_refusal};

use event::Refusal;
use line::Line;
use scopes::LineCall;
use steps::Outcome;
use view::{Place, View};

// What refuses 01, 0B or 0C, from the numbers of the line and whether all its lanes are idle; nothing refuses an enter here, since `ordered_calls::admit` decides it.
pub fn refusal_of(
    call: LineCall,
    lanes: u8,
    capacity: u32,
    size: u32,
    pointer: Place,
    view: View,
    idle: bool,
    buffer: usize,
) -> Option<Refusal>
    ensures { number_or_none result ≡ line_refusal call lanes capacity size pointer view idle buffer }
{
    match call {
        LineCall::Open {
            lanes: asked,
            capacity,
        } => setup_calls::open_refusal(lanes, asked, capacity, buffer),
        LineCall::Enter { .. } => None,
        LineCall::View {
            displacement,
            extent,
            used,
            blocks,
        } => {
            let asked = setup_calls::view_of(displacement, extent, used, blocks);
            setup_calls::view_refusal(lanes, capacity, asked, idle)
        }
        LineCall::Seek { whence, offset } => {
            setup_calls::seek_refusal(lanes, size, pointer, view, whence, offset, idle)
        }
    }
}

// A call on the whole line.
pub fn call_line(line: Line, book: &mut [u8], call: LineCall) -> Outcome
    requires { sound line (length book.old) ≡ true }
    ensures { Meets (call_event (state_of line book.old) (line_event call)) result book.new }
{
    match call {
        LineCall::Open { lanes, capacity } => setup_calls::open(line, book, lanes, capacity),
        LineCall::Enter { lane, count } => ordered_calls::enter(line, book, lane, count),
        LineCall::View {
            displacement,
            extent,
            used,
            blocks,
        } => { setup_calls::set_view(line, book, displacement, extent, used, blocks) }
        LineCall::Seek { whence, offset } => setup_calls::seek(line, book, whence, offset),
    }
}
