// The lines that `linebook` prints, stored in a lent buffer.
#![tactic(auto)]

ghost use Rattle.std.specs.Prelude.{◌≡◌, ◌+◌, ◌≤◌, length};
ghost use Rattle.steps.specs.declared.Answer.{Answer};
ghost use Rattle.printout.specs.Print.{answer_line, answer_words, end_line_of, words};
ghost use Rattle.number_text.specs.Stored.{Stored};
ghost use Rattle.answer_text.specs.Printing.{most_line, printed_to, printing_of};

use steps::Answer;
use view::Place;
use word_text::{
    BLANK, LINE_END, put_counted, put_freed, put_number, put_one, put_record, put_region, put_two,
    put_word,
};

// The longest line: a number of 20 digits, a blank, `region` with 10 and 5 digits, ` wakes none` and the line end.
pub const MOST_LINE: usize = 56;

// A buffer that may be too short for the text.
#[derive(Clone, Copy, Debug, PartialEq, Eq)]
pub struct TooShort;

// The line of an answer from its word on.
#[tactic(auto, unfolding(printout::specs::Print::answer_words, printout::specs::Print::words))]
pub fn put_values(out: &mut [u8], at: usize, answer: Answer) -> usize
    requires { at + length (words (answer_words answer)) ≤ length out.old }
    ensures { Stored (words (answer_words answer)) out.old at out.new result }
{
    match answer {
        Answer::Open { lanes, capacity } => {
            put_two(out, at, b"open", u64::from(lanes), u64::from(capacity))
        }
        Answer::Holds { pointer } => put_one(out, at, b"holds", u64::from(pointer.0)),
        Answer::Waits => put_word(out, at, b"waits", LINE_END),
        Answer::Region {
            start,
            count,
            wakes,
        } => put_region(out, at, u64::from(start.0), u64::from(count), wakes),
        Answer::Wrote { position } => put_one(out, at, b"wrote", position.0),
        Answer::Record { content } => put_record(out, at, content),
        Answer::None => put_word(out, at, b"none", LINE_END),
        Answer::Freed { wakes } => put_freed(out, at, wakes),
        Answer::Gathered => put_word(out, at, b"gathered", LINE_END),
        Answer::Ordered { before, total } => {
            put_two(out, at, b"ordered", u64::from(before.0), u64::from(total))
        }
        Answer::View => put_word(out, at, b"view", LINE_END),
        Answer::Seek { pointer } => put_one(out, at, b"seek", u64::from(pointer.0)),
        Answer::Refused { number } => put_one(out, at, b"refused", u64::from(number)),
    }
}

// The line of a refusal from its word on.
#[tactic(auto, unfolding(printout::specs::Print::answer_words))]
pub fn put_refused(out: &mut [u8], at: usize, number: u8) -> usize
    requires { at + length (words (answer_words (Answer.Refused number))) ≤ length out.old }
    ensures { Stored (words (answer_words (Answer.Refused number))) out.old at out.new result }
{
    put_counted(out, at, b"refused", u64::from(number))
}

// The line of an answer from an index on: the event's number, the answer, its values. The index after it.
pub fn put_answer(out: &mut [u8], at: usize, number: u64, answer: Answer) -> usize
    requires { at + most_line ≤ length out.old }
    ensures { Stored (answer_line number answer) out.old at out.new result × (result ≤ at + most_line) }
{
    let next = put_number(out, at, number, BLANK);
    put_values(out, next, answer)
}

// The last line from an index on: `end`, the size, the pointer. The index after it.
#[tactic(auto, using(crate::proofs::Lengths::end_short))]
pub fn put_end(out: &mut [u8], at: usize, size: u32, pointer: Place) -> usize
    requires { at + most_line ≤ length out.old }
    ensures { Stored (end_line_of size pointer) out.old at out.new result × (result ≤ at + most_line) }
{
    put_two(out, at, b"end", u64::from(size), u64::from(pointer.0))
}

// The line of an answer at the start of a lent buffer and its length, or TooShort and the buffer as it was.
pub fn print_answer(out: &mut [u8], number: u64, answer: Answer) -> Result<usize, TooShort>
    ensures { (result ≡ printing_of out.old number answer) × (out.new ≡ printed_to out.old number answer) }
{
    if out.len() < MOST_LINE {
        Err(TooShort)
    } else {
        Ok(put_answer(out, 0, number, answer))
    }
}
