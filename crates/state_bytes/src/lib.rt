// The state of a line in lent bytes: stored, told from other bytes, and read back. The layout is in specs/StateBytes.
#![tactic(auto)]

ghost use Rattle.std.specs.Prelude.{◌≡◌, ◌≤◌, length};
ghost use Rattle.std.proofs.lemmas.List.Edits.{sets};
ghost use Rattle.state_bytes.specs.StateBytes.{is_state, line_in, state_bytes, state_length};

use decode_fields::number32;
use line::Line;

pub mod entries;
mod flags;
pub mod head;

// The length of a state in bytes.
pub const STATE_LENGTH: usize = 1216;

// Whether bytes begin with the state of a line, sound or not.
#[tactic(auto, unfolding(crate::specs::StateBytes::is_state))]
pub fn is_state(bytes: &[u8]) -> bool
    ensures { result ≡ is_state bytes.now }
{
    bytes.len() >= STATE_LENGTH
        && number32(bytes, 0) == head::MARK
        && number32(bytes, 4) == head::LAYOUT
        && number32(bytes, 60) == 0
        && entries::entries_ok(bytes)
}

// The line whose state the bytes are.
pub fn line_in(bytes: &[u8]) -> Line
    requires { state_length ≤ length bytes.now }
    ensures { result ≡ line_in bytes.now }
{
    Line {
        lanes: bytes[8],
        capacity: number32(bytes, 9),
        size: number32(bytes, 13),
        pointer: head::pointer_in(bytes),
        view: head::view_in(bytes),
        lane: entries::lanes_in(bytes),
        flag: flags::flags_in(bytes),
    }
}

// Stores the state of a line at the start of the bytes; those past it stay.
#[tactic(auto, using(crate::proofs::Lengths::parts_stored, refuse::proofs::Shape::shape_of))]
pub fn put_state(bytes: &mut [u8], line: Line)
    requires { state_length ≤ length bytes.old }
    ensures { bytes.new ≡ sets bytes.old 0 (state_bytes line) }
{
    head::put_head(bytes, line);
    entries::put_lanes(bytes, line.lane);
    flags::put_flags(bytes, line.flag);
}
