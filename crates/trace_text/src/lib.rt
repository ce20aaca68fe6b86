// The trace of a sheet's run, a step an event: the event and its answer in words, the lanes as a row of letters, the pointer and the size; then counts.
#![tactic(auto)]

ghost use Rattle.std.specs.Prelude.{◌+◌, ◌≤◌, ◌<◌, true, [], ◌∷◌, ◌≡◌, Err, leb, length};
ghost use Rattle.lists.specs.Lists.{all_pass};
ghost use Rattle.event.specs.ReadWrite.{event_read};
ghost use Rattle.number_text.specs.Stored.{Stored};
ghost use Rattle.printout.specs.Text.{ascii};
ghost use Rattle.printout.specs.Print.{decimal};
ghost use Rattle.event_text.specs.Show.{event_words};
ghost use Rattle.trace_text.specs.TraceLine.{column, joined, most_trace_line};
ghost use Rattle.trace_text.specs.Trace.{legend};
ghost use Rattle.trace_text.specs.Steps.{GoesOn, StepMeets, StepReady, counted, onwards, start_of, stepped_by, stepped_in};

use answers::{ends_run, refusal_of};
use columns::end_column;
use decode::read_event;
use event::{Cursor, Event, Refusal};
use event_calls::call_event;
use event_text::{named, number, put_event, word};
use line::Line;
use results::put_result;
use steps::{Answer, Outcome};
use word_text::LINE_END;

mod answers;
mod columns;
mod lanes;
mod results;
pub mod summary;

// One count for each number of a reason, and before them that of the accepted calls.
pub const COUNTS: usize = 18;

// Where a trace stands: the line, the next byte of the sheet, the next event's number, and how many were accepted and refused, by number.
#[derive(Clone, Copy)]
pub struct Tracing {
    pub line: Line,
    pub at: usize,
    pub number: u64,
    pub counts: [u64; COUNTS],
}

// A step: where the trace stands after it, the length of its text, and whether the run goes on.
#[derive(Clone, Copy)]
pub struct Traced {
    pub next: Tracing,
    pub length: usize,
    pub more: bool,
}

// Before the first event: an unopened line.
pub fn start() -> Tracing
    ensures { result ≡ start_of }
{
    Tracing {
        line: Line::unopened(),
        at: 0,
        number: 0,
        counts: [0; COUNTS],
    }
}

// The first line: what the letters stand for.
pub fn put_legend(out: &mut [u8]) -> usize
    requires { most_trace_line ≤ length out.old }
    ensures { Stored legend out.old 0 out.new result × (result ≤ most_trace_line) }
{
    word(
        out,
        0,
        b"lanes: . idle  w waiting  ! woken  H holding  W writing  R reading  G gathered",
        LINE_END,
    )
}

// The event's number, as a column at the line's start.
fn put_event_number(out: &mut [u8], count: u64) -> usize
    requires { 64 ≤ length out.old }
    ensures { Stored (column 4 (decimal count)) out.old 0 out.new result × (result ≤ 32) }
{
    let end = number(out, 0, count, LINE_END);
    end_column(out, 0, end, 4)
}

// An event in words, as a column.
fn put_event_column(out: &mut [u8], at: usize, event: Event) -> usize
    requires { at + 512 ≤ length out.old }
    ensures { Stored (column 39 (joined (event_words event))) out.old at out.new result × (result ≤ at + 512) }
{
    let end = put_event(out, at, event);
    end_column(out, at, end, 39)
}

// Where bytes that are no event stand, as a column.
fn put_byte_column(out: &mut [u8], at: usize, byte: u64) -> usize
    requires { at + 512 ≤ length out.old }
    ensures { Stored (column 39 (joined (ascii "at byte" ∷ decimal byte ∷ []))) out.old at out.new result × (result ≤ at + 512) }
{
    let end = named(out, at, b"at byte", byte, LINE_END);
    end_column(out, at, end, 39)
}

// One answer more.
fn count_answer(mut counts: [u64; COUNTS], answer: Answer) -> [u64; COUNTS]
    requires { all_pass (λ n. leb n 18446744073709551614) counts ≡ true }
    ensures { result ≡ counted answer counts }
{
    let k = refusal_of(answer).map_or(0, usize::from);
    if k < COUNTS {
        counts[k] += 1;
    }
    counts
}

// Where a trace stands after an answer, with the line as it is then and the next byte of the sheet.
fn go_on(from: Tracing, answer: Answer, line: Line, at: usize) -> Tracing
    requires { (from.number < 18446744073709551615) × (all_pass (λ n. leb n from.number) from.counts ≡ true) }
    ensures { result ≡ onwards from answer line at }
{
    Tracing {
        line,
        at,
        number: from.number + 1,
        counts: count_answer(from.counts, answer),
    }
}

// The step of an event: the call, and its line.
fn step_event(from: Tracing, book: &mut [u8], event: Event, next: Cursor, out: &mut [u8]) -> Traced
    requires { (from.number < 18446744073709551615) × (all_pass (λ n. leb n from.number) from.counts ≡ true) × (most_trace_line ≤ length out.old) }
    ensures { StepMeets (stepped_by from book.old (event_read event next)) out.old result book.new out.new }
{
    let Outcome { line, answer } = call_event(from.line, book, event);
    let to_event = put_event_number(out, from.number);
    let to_answer = put_event_column(out, to_event, event);
    let length = put_result(out, to_answer, answer, line);
    Traced {
        next: go_on(from, answer, line, next.at),
        length,
        more: !ends_run(answer),
    }
}

// The step of bytes that are no event, which ends the run.
fn step_refused(from: Tracing, book: &[u8], refusal: Refusal, out: &mut [u8]) -> Traced
    requires { (from.number < 18446744073709551615) × (all_pass (λ n. leb n from.number) from.counts ≡ true) × (most_trace_line ≤ length out.old) }
    ensures { StepMeets (stepped_by from book.now (Err refusal)) out.old result book.now out.new }
{
    let answer = Answer::Refused {
        number: refusal.number(),
    };
    let to_byte = put_event_number(out, from.number);
    let to_answer = put_byte_column(out, to_byte, from.at as u64);
    let length = put_result(out, to_answer, answer, from.line);
    Traced {
        next: go_on(from, answer, from.line, from.at),
        length,
        more: false,
    }
}

// One event of the sheet: the call, its line at the start of `out`, and where the trace then stands.
#[tactic(auto, using(crate::proofs::Within::ended_goes_on))]
pub fn step(from: Tracing, book: &mut [u8], sheet: &[u8], out: &mut [u8]) -> Traced
    requires { StepReady from sheet.now out.old }
    ensures step_meets { StepMeets (stepped_in from book.old sheet.now) out.old result book.new out.new }
    ensures goes_on { GoesOn from sheet.now result }
{
    match read_event(sheet, Cursor { at: from.at }) {
        Ok(Some((event, next))) => step_event(from, book, event, next, out),
        Ok(None) => Traced {
            next: from,
            length: 0,
            more: false,
        },
        Err(refusal) => step_refused(from, book, refusal, out),
    }
}
