// The calls of lanes of a sheet, one after the other, and the refused ones on the whole line: the part of a run that leaves lanes, capacity and view as they are.
#![tactic(auto)]

ghost use Rattle.std.specs.Prelude.{None, ◌+◌, ◌≤◌, ◌<◌, ◌≡◌, length};
ghost use Rattle.limits.specs.Limits.{most_lanes, most_pointer};
ghost use Rattle.line.specs.Line.{lane};
ghost use Rattle.event.specs.Refusal.{number_of};
ghost use Rattle.steps.specs.Effects.{woken};
ghost use Rattle.steps.specs.declared.Answer.{Answer};
ghost use Rattle.ordered_calls.specs.Settled.{IdlePast};
ghost use Rattle.printout.specs.Print.{answer_line};
ghost use Rattle.number_text.specs.Stored.{Stored};
ghost use Rattle.answer_text.specs.Printing.{most_line};
ghost use Rattle.lanes_run.specs.Parts.{Begun, MayStart, RefusedLine, Stores, Went, caller_now, line_now, started_now};

use answer_text::put_answer;
use call_head::{Head, head_at};
use changes::phases::wake_with;
use changes::{Seen, entry_of};
use event::Refusal;
use lane_tests::tallies::{LaneCounts, counts_of};
use limits::MOST_LANES;
use line::{Lane, Line};
use line_calls::refusal_of;
use line_number::{next_number, number_of, plain_number, put_line_number};
use ordered_calls::start_all;
use reader::event_at;
use scopes::{Scope, scope_of};
use sheet_calls::{Called, Caller, Table, call_lane};
use steps::Answer;
use tiling::{Tiling, records_of};
use view::Place;
use wait_counts::count_answer;

// Where a run stands: the line, the index of the next event, the length of the text, and how many events there were.
#[derive(Clone, Copy)]
pub struct Standing {
    pub line: Line,
    pub at: usize,
    pub length: usize,
    pub number: u64,
}

// The lanes once an ordered call has started, and their counts.
#[derive(Clone, Copy)]
pub struct Started {
    pub lane: [Lane; MOST_LANES],
    pub counts: LaneCounts,
}

// A waiting lane, woken with the pointer.
fn wake_lane(waiting: Lane, pointer: Place) -> Lane
    ensures { result ≡ lane (woken pointer waiting.phase) }
{
    Lane {
        phase: wake_with(pointer, waiting.phase),
    }
}

// Where a run stands, put together.
pub fn stand_at(line: Line, at: usize, length: usize, number: u64) -> Standing
    ensures { result ≡ record { line = line; at = at; length = length; number = number } }
{
    Standing {
        line,
        at,
        length,
        number,
    }
}

// A call of a lane, with what it sees of the line's numbers, the counts and the lane's own entries.
fn caller_of(
    head: Head,
    line: Line,
    size: u32,
    pointer: Place,
    counts: LaneCounts,
    own: Lane,
    flag: u8,
) -> Caller
    ensures { result ≡ caller_now head line size pointer counts own flag }
{
    let seen = Seen {
        lanes: line.lanes,
        capacity: line.capacity,
        size,
        pointer,
        gathering: counts.gathered != 0,
        phase: own.phase,
        flag,
    };
    Caller { head, seen, counts }
}

// What refuses the event at an index, where it is a call on the whole line that is refused, and the index of the next event; no line is copied for it.
#[inline(always)]
fn refuse_line(
    line: Line,
    size: u32,
    pointer: Place,
    counts: LaneCounts,
    buffer: usize,
    sheet: &[u8],
    at: usize,
) -> Option<(Refusal, usize)>
    ensures { RefusedLine line size pointer counts buffer sheet.now at result }
{
    let step = event_at(sheet, at);
    let reading = step.reading;
    let Ok(Some((event, _))) = reading else {
        return None;
    };
    let Scope::Line { call } = scope_of(event) else {
        return None;
    };
    let idle = counts.active == 0;
    let refusal = refusal_of(
        call,
        line.lanes,
        line.capacity,
        size,
        pointer,
        line.view,
        idle,
        buffer,
    )?;
    Some((refusal, step.at))
}

// The line of a refusal.
fn put_refusal(out: &mut [u8], at: usize, number: u64, refusal: Refusal) -> usize
    requires { at + most_line ≤ length out.old }
    ensures { Stored (answer_line number (Answer.Refused (number_of refusal))) out.old at out.new result × (result ≤ at + most_line) }
{
    let answer = Answer::Refused {
        number: refusal.number(),
    };
    put_answer(out, at, number, answer)
}

// A line with these numbers, lanes and flags in place of its own.
fn line_with(
    line: Line,
    size: u32,
    pointer: Place,
    lane: [Lane; MOST_LANES],
    flag: [u8; MOST_LANES],
) -> Line
    ensures { result ≡ line_now line size pointer lane flag }
{
    Line {
        size,
        pointer,
        lane,
        flag,
        ..line
    }
}

// An ordered call starts: the first n lanes, from the pointer; no lane is gathered then.
fn start_lanes(lanes: [Lane; MOST_LANES], n: u8, pointer: u32) -> Started
    requires { (pointer ≤ most_pointer) × IdlePast n lanes }
    ensures { result ≡ started_now pointer lanes }
{
    let lane = start_all(lanes, n, pointer);
    Started {
        lane,
        counts: counts_of(lane),
    }
}

// What an accepted call of the lane at an entry changes of the lanes and their flags: the lane's own entries, and the lane that it wakes, or all lanes where an ordered call
// starts from the pointer before it. It gives the counts of the lanes as they are then.
fn store_call(
    lane: &mut [Lane; MOST_LANES],
    flag: &mut [u8; MOST_LANES],
    i: usize,
    called: Called,
    lanes: u8,
    before: Place,
) -> LaneCounts
    requires { (i < most_lanes) × MayStart lane.old i called lanes before }
    ensures { Stores lane.old flag.old i called before lane.new flag.new result }
{
    let change = called.change;
    flag[i] = change.flag;
    lane[i] = Lane {
        phase: change.phase,
    };
    if let Some(woken) = change.wakes {
        let w = entry_of(woken);
        lane[w] = wake_lane(lane[w], change.pointer);
        return called.counts;
    }
    if !called.starts {
        return called.counts;
    }
    let started = start_lanes(*lane, lanes, before.0);
    let after = started.lane;
    *lane = after;
    started.counts
}

// The calls of lanes, and the refused ones on the whole line, as far as there are such; `waits` counts the waiting. What they change of the line stays in locals,
// and the view's records in a table, which is made here: the view stays as it is.
pub fn run_lanes(
    from: Standing,
    book: &mut [u8],
    sheet: &[u8],
    out: &mut [u8],
    waits: &mut [u64],
) -> Standing
    requires { Begun from book.old sheet.now out.old waits.old }
    ensures { Went from book.old sheet.now out.old waits.old result book.new out.new waits.new }
{
    let line = from.line;
    let tiling = Tiling::of(line.view);
    let records = records_of(line.view);
    let table = Table {
        tiling,
        records: &records,
    };
    let mut size = line.size;
    let mut pointer = line.pointer;
    let mut lane = line.lane;
    let mut flag = line.flag;
    let mut counts = counts_of(lane);
    let mut at = from.at;
    let mut length = from.length;
    let mut number = plain_number(from.number);
    loop {
        if let Some(head) = head_at(sheet, at) {
            let i = entry_of(head.lane);
            let caller = caller_of(head, line, size, pointer, counts, lane[i], flag[i]);
            let to = put_line_number(out, length, number);
            let called = call_lane(caller, table, &flag, book, sheet, out, to);
            at = called.next;
            length = called.end;
            if !called.refused {
                count_answer(waits, i, called.change.answer);
                counts = store_call(&mut lane, &mut flag, i, called, line.lanes, pointer);
                size = called.change.size;
                pointer = called.change.pointer;
            }
        } else if let Some((refusal, next)) = refuse_line(
            line,
            size,
            pointer,
            counts,
            book.len(),
            sheet,
            at,
        ) {
            at = next;
            length = put_refusal(out, length, number_of(number), refusal);
        } else {
            let now = line_with(line, size, pointer, lane, flag);
            return stand_at(now, at, length, number_of(number));
        }
        number = next_number(number);
    }
}
