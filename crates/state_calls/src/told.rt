// What is told of a line in state bytes, as numbers.
ghost use Rattle.std.specs.Prelude.{◌≡◌, ◌≤◌, length};
ghost use Rattle.state_bytes.specs.StateBytes.{line_in, state_length};
ghost use Rattle.state_calls.specs.Told.{lane_if_any, number_by, number_if_any, position_if_any, sound_in};

use decode_fields::{number16, number32, number64};
use limits::MOST_LANES;
use state_bytes::{head, is_state, line_in};
use view::Place;

// Whether the bytes are a line that is sound with a book of this length.
pub fn is_sound(state: &[u8], book: usize) -> bool
    ensures { result ≡ sound_in state.now book }
{
    is_state(state) && soundness::is_sound(line_in(state), book)
}

// What a lane is doing: its entry as one number; none where the bytes are no line, or it has no such lane.
pub fn lane(state: &[u8], lane: u8) -> Option<u64>
    ensures { result ≡ lane_if_any state.now lane }
{
    if !is_state(state) {
        return None;
    }
    let i = usize::from(lane);
    if state[8] <= lane || MOST_LANES <= i {
        return None;
    }
    Some(number64(state, 64 + 8 * i))
}

// A number of the line whose state the bytes are, by its index.
fn number_of(state: &[u8], index: u8) -> Option<u64>
    requires { state_length ≤ length state.now }
    ensures { result ≡ number_by (line_in state.now) index }
{
    match index {
        0 => Some(u64::from(state[8])),
        1 => Some(u64::from(number32(state, 9))),
        2 => Some(u64::from(number32(state, 13))),
        3 => Some(u64::from(number32(state, 17))),
        4 => Some(u64::from(number32(state, 21))),
        5 => Some(u64::from(number16(state, 25))),
        6 => Some(u64::from(state[27])),
        _ => None,
    }
}

// A number of the line, by its index; none where the bytes are no line, or it has no such number.
pub fn number(state: &[u8], index: u8) -> Option<u64>
    ensures { result ≡ number_if_any state.now index }
{
    if !is_state(state) {
        return None;
    }
    number_of(state, index)
}

// The position of a place in the line's view; none where the bytes are no line.
pub fn position(state: &[u8], place: u32) -> Option<u64>
    ensures { result ≡ position_if_any state.now place }
{
    if !is_state(state) {
        return None;
    }
    let view = head::view_in(state);
    Some(view.position(Place(place)).0)
}
