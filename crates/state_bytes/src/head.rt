// The head of a state: the mark, the layout, and the numbers of the line with its view.
ghost use Rattle.std.specs.Prelude.{◌≡◌, ◌+◌, ◌≤◌, length};
ghost use Rattle.std.proofs.lemmas.List.Edits.{sets};
ghost use Rattle.event.specs.Event.{bytes_of};
ghost use Rattle.view.specs.View.{place};
ghost use Rattle.state_bytes.specs.StateBytes.{block_at, entries_at, head_lengths, head_numbers, number_at, view_in};

use decode_fields::{number16, number32};
use encode_fields::Field;
use line::Line;
use std::array;
use view::{Block, Place, View};

// "GUDL" in ASCII.
pub const MARK: u32 = 0x4755444C;

// The number of the layout.
pub const LAYOUT: u32 = 1;

pub fn pointer_in(bytes: &[u8]) -> Place
    requires { entries_at ≤ length bytes.now }
    ensures { result ≡ place (number_at 17 4 bytes.now) }
{
    Place(number32(bytes, 17))
}

fn block_at(bytes: &[u8], at: usize) -> Block
    requires { at + 4 ≤ length bytes.now }
    ensures { result ≡ block_at at bytes.now }
{
    Block {
        start: number16(bytes, at),
        length: number16(bytes, at + 2),
    }
}

pub fn view_in(bytes: &[u8]) -> View
    requires { entries_at ≤ length bytes.now }
    ensures { result ≡ view_in bytes.now }
{
    View {
        displacement: number32(bytes, 21),
        extent: number16(bytes, 25),
        used: bytes[27],
        block: array::from_fn(|i| block_at(bytes, 28 + 4 * i)),
    }
}

// Stores the head, its view as the body of 0B.
#[tactic(auto, unfolding(encode_fields::specs::Put::put_fields))]
pub fn put_head(bytes: &mut [u8], line: Line)
    requires { entries_at ≤ length bytes.old }
    ensures { bytes.new ≡ sets bytes.old 0 (bytes_of head_lengths (head_numbers line)) }
{
    let numbers = (line.lanes, (line.capacity, (line.size, line.pointer.0)));
    let view = line.view;
    // A local of its own: the check has no proof for an array that goes into a tuple straight from a field.
    let blocks = view.block;
    let fields = (view.displacement, (view.extent, (view.used, blocks)));
    ((MARK, LAYOUT), (numbers, (fields, 0u32))).put(bytes, 0);
}
