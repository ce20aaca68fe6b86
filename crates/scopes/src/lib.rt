// A call by what it can change: one lane, with the line's numbers and the lane that it wakes, or the whole line.
#![tactic(auto)]

ghost use Rattle.std.specs.Prelude.{◌≡◌};
ghost use Rattle.scopes.specs.Scope.{scope_of};

use event::Event;
use limits::MOST_BLOCKS;
use view::{Block, Place};

// A call of a lane, of the kinds 02 to 09, but for its lane.
#[derive(Clone, Copy, Debug, PartialEq, Eq)]
pub enum LaneCall {
    Want { purpose: u8 },
    Receive,
    Take { count: u16 },
    Write { content: u64 },
    Read,
    Put { place: Place, content: u64 },
    Look { place: Place },
    Free,
}

// A call on the whole line: 01, 0A, 0B or 0C.
#[derive(Clone, Copy, Debug, PartialEq, Eq)]
pub enum LineCall {
    Open {
        lanes: u8,
        capacity: u32,
    },
    Enter {
        lane: u8,
        count: u16,
    },
    View {
        displacement: u32,
        extent: u16,
        used: u8,
        blocks: [Block; MOST_BLOCKS],
    },
    Seek {
        whence: u8,
        offset: i32,
    },
}

// What an event calls: a call of a lane, one on the whole line, or none, where its kind is not listed.
#[derive(Clone, Copy, Debug, PartialEq, Eq)]
pub enum Scope {
    Lane { lane: u8, call: LaneCall },
    Line { call: LineCall },
    Unlisted,
}

// A call of a lane.
fn by_lane(lane: u8, call: LaneCall) -> Scope
    ensures { result ≡ Scope.Lane lane call }
{
    Scope::Lane { lane, call }
}

// A call on the whole line.
fn on_line(call: LineCall) -> Scope
    ensures { result ≡ Scope.Line call }
{
    Scope::Line { call }
}

// The one place where an event is taken apart into a call.
pub fn scope_of(event: Event) -> Scope
    ensures { result ≡ scope_of event }
{
    match event {
        Event::Open { lanes, capacity } => on_line(LineCall::Open { lanes, capacity }),
        Event::Want { lane, purpose } => by_lane(lane, LaneCall::Want { purpose }),
        Event::Receive { lane } => by_lane(lane, LaneCall::Receive),
        Event::Take { lane, count } => by_lane(lane, LaneCall::Take { count }),
        Event::Write { lane, content } => by_lane(lane, LaneCall::Write { content }),
        Event::Read { lane } => by_lane(lane, LaneCall::Read),
        Event::Put {
            lane,
            place,
            content,
        } => by_lane(lane, LaneCall::Put { place, content }),
        Event::Look { lane, place } => by_lane(lane, LaneCall::Look { place }),
        Event::Free { lane } => by_lane(lane, LaneCall::Free),
        Event::Enter { lane, count } => on_line(LineCall::Enter { lane, count }),
        Event::View {
            displacement,
            extent,
            used,
            blocks,
        } => on_line(LineCall::View {
            displacement,
            extent,
            used,
            blocks,
        }),
        Event::Seek { whence, offset } => on_line(LineCall::Seek { whence, offset }),
        Event::Unlisted => Scope::Unlisted,
    }
}
