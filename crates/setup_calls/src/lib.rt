// The calls that set the line up: 01 open, 0B view and 0C seek. What refuses one is decided from a few numbers. The line handed to them is sound: the entries test that.
#![tactic(auto)]

ghost use Rattle.std.specs.Prelude.{true, ◌≡◌, length};
ghost use Rattle.line.specs.Sound.{sound};
ghost use Rattle.event.specs.Refusal.{number_or_none};
ghost use Rattle.event.specs.declared.Event.{Event};
ghost use Rattle.steps.specs.Effects.{view_of};
ghost use Rattle.steps.specs.Meets.{Meets, state_of};
ghost use Rattle.steps.specs.Step.{call_event};
ghost use Rattle.setup_calls.specs.Setup.{Seeks, open_refusal, seek_refusal, target_of, view_refusal};

use event::Refusal;
use lane_tests::tallies;
use limits::MOST_BLOCKS;
use line::Line;
use refuse::refuse;
use steps::{Answer, Outcome};
use view::{Block, Place, View};

mod fresh;
mod target;

use target::Whence;

// What refuses an opening of a line with `own` lanes: that it has any, the lanes asked for, or the capacity.
pub fn open_refusal(own: u8, lanes: u8, capacity: u32, buffer: usize) -> Option<Refusal>
    ensures { number_or_none result ≡ open_refusal own lanes capacity buffer }
{
    if own != 0 {
        return Some(Refusal::AlreadyOpen);
    }
    if !fresh::lanes_ok(lanes) {
        return Some(Refusal::LanesOutside);
    }
    if !fresh::capacity_ok(capacity, buffer) {
        return Some(Refusal::CapacityOutside);
    }
    None
}

// What refuses a view: a line that is not open, a view that breaks a rule, or a lane that is not idle.
pub fn view_refusal(own: u8, capacity: u32, view: View, idle: bool) -> Option<Refusal>
    ensures { number_or_none result ≡ view_refusal own capacity view idle }
{
    if own == 0 {
        return Some(Refusal::NotOpen);
    }
    if !view.is_ok(capacity) {
        return Some(Refusal::ViewBreaksRule);
    }
    if !idle {
        return Some(Refusal::LaneNotIdle);
    }
    None
}

// Where a seek goes, or what refuses it: a line that is not open, the whence, a lane that is not idle, or a place out of range.
fn seek_to(
    own: u8,
    size: u32,
    pointer: Place,
    view: View,
    whence: u8,
    offset: i32,
    idle: bool,
) -> Result<Place, Refusal>
    ensures { Seeks (seek_refusal own size pointer view whence offset idle) (target_of size pointer view whence offset) result }
{
    if own == 0 {
        return Err(Refusal::NotOpen);
    }
    let whence = Whence::try_from(whence)?;
    if !idle {
        return Err(Refusal::LaneNotIdle);
    }
    target::seek_to(size, pointer, view, whence, offset).ok_or(Refusal::PointerOutside)
}

// What refuses a seek.
pub fn seek_refusal(
    own: u8,
    size: u32,
    pointer: Place,
    view: View,
    whence: u8,
    offset: i32,
    idle: bool,
) -> Option<Refusal>
    ensures { number_or_none result ≡ seek_refusal own size pointer view whence offset idle }
{
    seek_to(own, size, pointer, view, whence, offset, idle).err()
}

// 01: opens the line with so many lanes, over the first bytes of the book.
pub fn open(line: Line, book: &mut [u8], lanes: u8, capacity: u32) -> Outcome
    requires { sound line (length book.old) ≡ true }
    ensures { Meets (call_event (state_of line book.old) (Event.Open lanes capacity)) result book.new }
{
    if let Some(reason) = open_refusal(line.lanes, lanes, capacity, book.len()) {
        return refuse(line, reason);
    }
    fresh::zero_first(book, capacity as usize);
    Outcome {
        line: fresh::opened(lanes, capacity),
        answer: Answer::Open { lanes, capacity },
    }
}

// The view of a view event's fields.
pub fn view_of(displacement: u32, extent: u16, used: u8, blocks: [Block; MOST_BLOCKS]) -> View
    ensures { result ≡ view_of displacement extent used blocks }
{
    View {
        displacement,
        extent,
        used,
        block: blocks,
    }
}

// 0B: sets the view, with the pointer at place 0.
pub fn set_view(
    line: Line,
    book: &[u8],
    displacement: u32,
    extent: u16,
    used: u8,
    blocks: [Block; MOST_BLOCKS],
) -> Outcome
    requires { sound line (length book.now) ≡ true }
    ensures { Meets (call_event (state_of line book.now) (Event.View displacement extent used blocks)) result book.now }
{
    let view = view_of(displacement, extent, used, blocks);
    let idle = tallies::all_idle(line.lane);
    if let Some(reason) = view_refusal(line.lanes, line.capacity, view, idle) {
        return refuse(line, reason);
    }
    Outcome {
        line: Line {
            view,
            pointer: Place(0),
            ..line
        },
        answer: Answer::View,
    }
}

// 0C: moves the pointer by a signed offset from place 0, from where it is, or from the end of the book.
pub fn seek(line: Line, book: &[u8], whence: u8, offset: i32) -> Outcome
    requires { sound line (length book.now) ≡ true }
    ensures { Meets (call_event (state_of line book.now) (Event.Seek whence offset)) result book.now }
{
    let idle = tallies::all_idle(line.lane);
    match seek_to(
        line.lanes,
        line.size,
        line.pointer,
        line.view,
        whence,
        offset,
        idle,
    ) {
        Ok(pointer) => Outcome {
            line: Line { pointer, ..line },
            answer: Answer::Seek { pointer },
        },
        Err(reason) => refuse(line, reason),
    }
}
