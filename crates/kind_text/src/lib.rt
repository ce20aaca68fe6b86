// The line of an answer past the event's number, one function for each kind of a lane's call, or for two whose answers are the same.
// All are inlined, those with one caller by the compiler's own choice, so that the answer is not passed through memory.
#![tactic(auto)]

ghost use Rattle.std.specs.Prelude.{◌+◌, ◌≤◌, length};
ghost use Rattle.answer_text.specs.Printing.{most_values};
ghost use Rattle.kind_text.specs.Put.{Put};

use answer_text::{put_refused, put_values};
use steps::Answer;
use word_text::{LINE_END, put_freed, put_one, put_record, put_region, put_two, put_word};

// 02 want.
#[tactic(auto, unfolding(printout::specs::Print::answer_words, printout::specs::Print::words))]
pub fn put_wanted(out: &mut [u8], at: usize, answer: Answer) -> usize
    requires { at + most_values ≤ length out.old }
    ensures { Put answer out.old at out.new result }
{
    match answer {
        Answer::Holds { pointer } => put_one(out, at, b"holds", u64::from(pointer.0)),
        Answer::Waits => put_word(out, at, b"waits", LINE_END),
        Answer::Refused { number } => put_refused(out, at, number),
        _ => put_values(out, at, answer),
    }
}

// 03 receive.
pub fn put_received(out: &mut [u8], at: usize, answer: Answer) -> usize
    requires { at + most_values ≤ length out.old }
    ensures { Put answer out.old at out.new result }
{
    match answer {
        Answer::Holds { pointer } => put_one(out, at, b"holds", u64::from(pointer.0)),
        Answer::Refused { number } => put_refused(out, at, number),
        _ => put_values(out, at, answer),
    }
}

// 04 take.
pub fn put_taken(out: &mut [u8], at: usize, answer: Answer) -> usize
    requires { at + most_values ≤ length out.old }
    ensures { Put answer out.old at out.new result }
{
    match answer {
        Answer::Region {
            start,
            count,
            wakes,
        } => put_region(out, at, u64::from(start.0), u64::from(count), wakes),
        Answer::Refused { number } => put_refused(out, at, number),
        _ => put_values(out, at, answer),
    }
}

// 05 write and 07 put, whose answers are the same.
#[inline(always)]
pub fn put_written(out: &mut [u8], at: usize, answer: Answer) -> usize
    requires { at + most_values ≤ length out.old }
    ensures { Put answer out.old at out.new result }
{
    match answer {
        Answer::Wrote { position } => put_one(out, at, b"wrote", position.0),
        Answer::Refused { number } => put_refused(out, at, number),
        _ => put_values(out, at, answer),
    }
}

// 06 read and 08 look, whose answers are the same.
#[tactic(auto, unfolding(printout::specs::Print::answer_words, printout::specs::Print::words))]
#[inline(always)]
pub fn put_read(out: &mut [u8], at: usize, answer: Answer) -> usize
    requires { at + most_values ≤ length out.old }
    ensures { Put answer out.old at out.new result }
{
    match answer {
        Answer::Record { content } => put_record(out, at, content),
        Answer::None => put_word(out, at, b"none", LINE_END),
        Answer::Refused { number } => put_refused(out, at, number),
        _ => put_values(out, at, answer),
    }
}

// 09 free.
pub fn put_freed_line(out: &mut [u8], at: usize, answer: Answer) -> usize
    requires { at + most_values ≤ length out.old }
    ensures { Put answer out.old at out.new result }
{
    match answer {
        Answer::Freed { wakes } => put_freed(out, at, wakes),
        Answer::Refused { number } => put_refused(out, at, number),
        _ => put_values(out, at, answer),
    }
}

// 0A enter.
#[tactic(auto, unfolding(printout::specs::Print::answer_words, printout::specs::Print::words))]
pub fn put_entered(out: &mut [u8], at: usize, answer: Answer) -> usize
    requires { at + most_values ≤ length out.old }
    ensures { Put answer out.old at out.new result }
{
    match answer {
        Answer::Gathered => put_word(out, at, b"gathered", LINE_END),
        Answer::Ordered { before, total } => {
            put_two(out, at, b"ordered", u64::from(before.0), u64::from(total))
        }
        Answer::Refused { number } => put_refused(out, at, number),
        _ => put_values(out, at, answer),
    }
}
