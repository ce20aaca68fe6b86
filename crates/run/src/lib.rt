// The run of a sheet: its events one after the other on one line and one lent book, with the printed lines in a lent buffer.
#![tactic(auto)]

ghost use Rattle.std.specs.Prelude.{◌+◌, ◌≤◌, false, true, ◌≡◌, length};
ghost use Rattle.line.specs.Sound.{sound};
ghost use Rattle.steps.specs.Meets.{state_of};
ghost use Rattle.report.specs.Lent.{cannot_count};
ghost use Rattle.run_text.specs.RunText.{most_last, most_text};
ghost use Rattle.run.specs.Runs.{Ended, RunMeets, RunSound};

use answer_text::{TooShort, put_answer};
use event::Refusal;
use lanes_run::{run_lanes, stand_at};
use line::Line;
use line_calls::call_line;
use reader::event_at;
use report::{Report, cannot_count};
use run_text::{has_room, put_last};
use scopes::{Scope, scope_of};
use soundness::is_sound;
use wait_counts::{COUNTS, grow};

// What a run gives: the line as it leaves it, and the length of the text, or that the buffer lent for the text is too short.
#[derive(Clone, Copy)]
pub struct RunOutcome {
    pub line: Line,
    pub printed: Result<usize, TooShort>,
}

// The same with the report of waiting, where that is handed over by value.
#[derive(Clone, Copy)]
pub struct Reported {
    pub line: Line,
    pub printed: Result<usize, TooShort>,
    pub report: Report,
}

// The end of a run, by a refusal where there is one: the last lines stored, the line and the report as they are.
fn end_run(
    line: Line,
    refusal: Option<Refusal>,
    out: &mut [u8],
    at: usize,
    number: u64,
    report: Report,
) -> Reported
    requires { at + most_last ≤ length out.old }
    ensures { Ended at number refusal line report out.old result out.new }
{
    let reason = match refusal {
        Some(refusal) => Some(refusal.number()),
        None => None,
    };
    let end = put_last(line, reason, out, at, number);
    Reported {
        line,
        printed: Ok(end),
        report,
    }
}

// The run on a sound line, part by part: calls of lanes and refused calls on the whole line, then one call on the whole line. Where a part ends no lane calls, and an event
// that was read is of a listed kind, so that the second return is never reached. That a refused call does not end a part is for speed, and not promised.
fn run_sound(line: Line, book: &mut [u8], sheet: &[u8], out: &mut [u8], report: Report) -> Reported
    requires { (sound line (length book.old) ≡ true) × (most_text (length sheet.now) ≤ length out.old) × (cannot_count report sheet.now ≡ false) }
    ensures { RunSound (state_of line book.old) report sheet.now out.old result book.new out.new }
{
    let mut waits = [0; COUNTS];
    let mut from = stand_at(line, 0, 0, 0);
    loop {
        let to = run_lanes(from, book, sheet, out, &mut waits);
        let step = event_at(sheet, to.at);
        let reading = step.reading;
        let Ok(found) = reading else {
            let refusal = reading.err();
            let grown = grow(report, &waits);
            return end_run(to.line, refusal, out, to.length, to.number, grown);
        };
        let Some((event, _)) = found else {
            let grown = grow(report, &waits);
            return end_run(to.line, None, out, to.length, to.number, grown);
        };
        let Scope::Line { call } = scope_of(event) else {
            let refusal = Some(Refusal::UnlistedKind);
            return end_run(to.line, refusal, out, to.length, to.number, report);
        };
        let called = call_line(to.line, book, call);
        let length = put_answer(out, to.length, to.number, called.answer);
        from = stand_at(called.line, step.at, length, to.number + 1);
    }
}

// The run of a sheet with a report of waiting, which it hands back grown, and with the printed lines at the start of a lent buffer; a buffer that might be too
// short for them changes nothing. `lent_run::run_lent` is the same with the report lent.
pub fn run_reported(
    line: Line,
    book: &mut [u8],
    sheet: &[u8],
    out: &mut [u8],
    report: Report,
) -> Reported
    ensures { RunMeets (state_of line book.old) report sheet.now out.old result book.new out.new }
{
    if !has_room(sheet.len(), out.len()) {
        return Reported {
            line,
            printed: Err(TooShort),
            report,
        };
    }
    if !is_sound(line, book.len()) {
        return end_run(line, Some(Refusal::NotSound), out, 0, 0, report);
    }
    if cannot_count(report, sheet.len()) {
        return end_run(line, Some(Refusal::TooLarge), out, 0, 0, report);
    }
    run_sound(line, book, sheet, out, report)
}
