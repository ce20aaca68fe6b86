// The text of a run: the room that it takes, and its last lines.
#![tactic(auto)]

ghost use Rattle.std.specs.Prelude.{◌+◌, ◌≤◌, ◌≡◌, leb, length};
ghost use Rattle.number_text.specs.Stored.{Stored};
ghost use Rattle.run_text.specs.RunText.{last_lines, most_last, most_text};

use answer_text::{MOST_LINE, put_answer, put_end};
use line::Line;
use steps::Answer;

// The last two lines at most.
pub const MOST_LAST: usize = 2 * MOST_LINE;

// Whether a buffer takes the text of any sheet of this length: a line for each byte of the sheet, and two lines more.
pub fn has_room(sheet: usize, out: usize) -> bool
    ensures { result ≡ leb (most_text sheet) out }
{
    MOST_LAST <= out && sheet <= (out - MOST_LAST) / MOST_LINE
}

// The last lines: what the sheet or the run was refused for, by its number, where it was, and `end` with the size and the pointer.
pub fn put_last(line: Line, refusal: Option<u8>, out: &mut [u8], at: usize, number: u64) -> usize
    requires { at + most_last ≤ length out.old }
    ensures { Stored (last_lines number refusal line) out.old at out.new result × (result ≤ at + most_last) }
{
    let end = match refusal {
        Some(reason) => put_answer(out, at, number, Answer::Refused { number: reason }),
        None => at,
    };
    put_end(out, end, line.size, line.pointer)
}
