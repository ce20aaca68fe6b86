// The end of a line: the answer, the lanes after it, the pointer and the size.
ghost use Rattle.std.specs.Prelude.{◌+◌, ◌≤◌, length};
ghost use Rattle.limits.specs.Limits.{most_lanes};
ghost use Rattle.number_text.specs.Stored.{Stored};
ghost use Rattle.trace_text.specs.TraceLine.{result_text, tail_of};

use crate::answers::put_told;
use crate::columns::end_column;
use crate::lanes::put_row;
use event_text::{number, word};
use line::Line;
use steps::Answer;
use view::Place;
use word_text::{BLANK, LINE_END};

// The pointer and the size.
fn put_tail(out: &mut [u8], at: usize, size: u32, pointer: Place) -> usize
    requires { at + 64 ≤ length out.old }
    ensures { Stored (tail_of size pointer) out.old at out.new result × (result ≤ at + 64) }
{
    let to_place = word(out, at, b"  pointer", BLANK);
    let end = number(out, to_place, u64::from(pointer.0), LINE_END);
    let next = end_column(out, to_place, end, 5);
    let to_size = word(out, next, b"size", BLANK);
    number(out, to_size, u64::from(size), LINE_END)
}

// The answer, and what it left.
pub fn put_result(out: &mut [u8], at: usize, answer: Answer, line: Line) -> usize
    requires { at + (most_lanes + 176) ≤ length out.old }
    ensures { Stored (result_text answer line) out.old at out.new result × (result ≤ at + (most_lanes + 176)) }
{
    let end = put_told(out, at, answer);
    let row = end_column(out, at, end, 36);
    let tail = put_row(out, row, line);
    put_tail(out, tail, line.size, line.pointer)
}
