// The twelve calls, a function for each: it makes the event and calls `event_calls::call_event`. None requires anything.
// A call's tests and what it does stand in `turn_calls` (02, 03, 04, 09), `record_calls` (05 to 08), `ordered_calls` (0A) and `setup_calls` (01, 0B, 0C).
#![tactic(auto)]

ghost use Rattle.event.specs.declared.Event.{Event};
ghost use Rattle.steps.specs.Meets.{Meets, state_of};
ghost use Rattle.steps.specs.Step.{call_event};

use event::Event;
use event_calls::call_event;
use limits::MOST_BLOCKS;
use line::Line;
use steps::Outcome;
use view::{Block, Place};

// 01: opens the line and zeroes the book's capacity bytes.
pub fn open(line: Line, book: &mut [u8], lanes: u8, capacity: u32) -> Outcome
    ensures { Meets (call_event (state_of line book.old) (Event.Open lanes capacity)) result book.new }
{
    call_event(line, book, Event::Open { lanes, capacity })
}

// 02: a lane asks for the book, for purpose 0, 1 or 2.
pub fn want(line: Line, book: &mut [u8], lane: u8, purpose: u8) -> Outcome
    ensures { Meets (call_event (state_of line book.old) (Event.Want lane purpose)) result book.new }
{
    call_event(line, book, Event::Want { lane, purpose })
}

// 03: a lane receives its wake.
pub fn receive(line: Line, book: &mut [u8], lane: u8) -> Outcome
    ensures { Meets (call_event (state_of line book.old) (Event.Receive lane)) result book.new }
{
    call_event(line, book, Event::Receive { lane })
}

// 04: a holder takes a region of this many records and releases.
pub fn take(line: Line, book: &mut [u8], lane: u8, count: u16) -> Outcome
    ensures { Meets (call_event (state_of line book.old) (Event.Take lane count)) result book.new }
{
    call_event(line, book, Event::Take { lane, count })
}

// 05: a busy writer puts its next record.
pub fn write(line: Line, book: &mut [u8], lane: u8, content: u64) -> Outcome
    ensures { Meets (call_event (state_of line book.old) (Event.Write lane content)) result book.new }
{
    call_event(line, book, Event::Write { lane, content })
}

// 06: a busy reader gets its next record.
pub fn read(line: Line, book: &mut [u8], lane: u8) -> Outcome
    ensures { Meets (call_event (state_of line book.old) (Event.Read lane)) result book.new }
{
    call_event(line, book, Event::Read { lane })
}

// 07: the holder of the whole book puts a record at a place.
pub fn put(line: Line, book: &mut [u8], lane: u8, place: Place, content: u64) -> Outcome
    ensures { Meets (call_event (state_of line book.old) (Event.Put lane place content)) result book.new }
{
    call_event(
        line,
        book,
        Event::Put {
            lane,
            place,
            content,
        },
    )
}

// 08: the holder of the whole book looks at a place.
pub fn look(line: Line, book: &mut [u8], lane: u8, place: Place) -> Outcome
    ensures { Meets (call_event (state_of line book.old) (Event.Look lane place)) result book.new }
{
    call_event(line, book, Event::Look { lane, place })
}

// 09: the holder of the whole book releases.
pub fn free(line: Line, book: &mut [u8], lane: u8) -> Outcome
    ensures { Meets (call_event (state_of line book.old) (Event.Free lane)) result book.new }
{
    call_event(line, book, Event::Free { lane })
}

// 0A: a lane enters an ordered call with this many records.
pub fn enter(line: Line, book: &mut [u8], lane: u8, count: u16) -> Outcome
    ensures { Meets (call_event (state_of line book.old) (Event.Enter lane count)) result book.new }
{
    call_event(line, book, Event::Enter { lane, count })
}

// 0B: sets the view, with the pointer at place 0.
pub fn set_view(
    line: Line,
    book: &mut [u8],
    displacement: u32,
    extent: u16,
    used: u8,
    blocks: [Block; MOST_BLOCKS],
) -> Outcome
    ensures { Meets (call_event (state_of line book.old) (Event.View displacement extent used blocks)) result book.new }
{
    call_event(
        line,
        book,
        Event::View {
            displacement,
            extent,
            used,
            blocks,
        },
    )
}

// 0C: moves the pointer by a signed offset from place 0, from the pointer or from the end of the book, by whence 0, 1 or 2.
pub fn seek(line: Line, book: &mut [u8], whence: u8, offset: i32) -> Outcome
    ensures { Meets (call_event (state_of line book.old) (Event.Seek whence offset)) result book.new }
{
    call_event(line, book, Event::Seek { whence, offset })
}
