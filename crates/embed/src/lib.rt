// The functions that C and Rust programs link, on numbers and byte slices: a slice is a pointer and a length. Rust programs link these, C programs embed_c's of the
// same names: both are the interface.
#![tactic(auto)]

ghost use Rattle.std.specs.Prelude.{◌≡◌};
ghost use Rattle.embed.specs.Embedded.{LinkedMeets, LinkedRun, event_length, event_refusal, length_printed, linked_of, text_bound};
ghost use Rattle.report.specs.Rows.{mean_of, remainder_of};
ghost use Rattle.steps.specs.State.{fresh};
ghost use Rattle.version.specs.Version.{version_number};

use answer_text::{MOST_LINE, TooShort};
use event::Cursor;
use line::Line;
use report::Report;
use run::run_reported;
use run_text::MOST_LAST;

pub mod single_calls;

// What a run over a report handed by value answers: the length of its text as `gudlemi_run` answers it, and the report as the run leaves it.
#[derive(Clone, Copy, Debug, PartialEq, Eq)]
pub struct Linked {
    pub length: usize,
    pub report: Report,
}

// The length of a printed text, or the greatest number where there is none.
fn length_of(printed: Result<usize, TooShort>) -> usize
    ensures { result ≡ length_printed printed }
{
    printed.unwrap_or(usize::MAX)
}

// Runs a whole sheet from an unopened line over a lent book, with a report by value: the one way in which the linked functions run.
fn run_linked(sheet: &[u8], book: &mut [u8], text: &mut [u8], report: Report) -> Linked
    ensures { LinkedMeets (fresh book.old) report sheet.now text.old result book.new text.new }
{
    let ran = run_reported(Line::unopened(), book, sheet, text, report);
    Linked {
        length: length_of(ran.printed),
        report: ran.report,
    }
}

// Runs a whole sheet from an unopened line over a lent book, the printed lines at the start of `text`; the answer is their length, or the greatest number where
// `text` may be too short, with nothing altered. Its own report is dropped, so that 17 comes only for a sheet that is too long.
#[unsafe(no_mangle)]
pub extern "C" fn gudlemi_run(sheet: &[u8], book: &mut [u8], text: &mut [u8]) -> usize
    ensures { LinkedRun (fresh book.old) sheet.now text.old result book.new text.new }
{
    run_linked(sheet, book, text, Report::empty()).length
}

// Runs a whole sheet as `gudlemi_run` does, over a lent report, which grows in place.
#[unsafe(no_mangle)]
pub extern "C" fn gudlemi_run_reported(
    sheet: &[u8],
    book: &mut [u8],
    text: &mut [u8],
    report: &mut Report,
) -> usize
    ensures { LinkedMeets (fresh book.old) report.old sheet.now text.old (linked_of result report.new) book.new text.new }
{
    let ran = run_linked(sheet, book, text, *report);
    *report = ran.report;
    ran.length
}

// The whole part of the mean of a report's row, by its times and its sum; 0 where there is no time.
#[unsafe(no_mangle)]
pub extern "C" fn gudlemi_mean(times: u64, sum: u64) -> u64
    ensures { result ≡ mean_of times sum }
{
    report::mean(times, sum)
}

// What remains of the sum; 0 where there is no time.
#[unsafe(no_mangle)]
pub extern "C" fn gudlemi_remainder(times: u64, sum: u64) -> u64
    ensures { result ≡ remainder_of times sum }
{
    report::remainder(times, sum)
}

// A length of `text` that is enough for any sheet of this length, or the greatest number where there is none.
#[unsafe(no_mangle)]
pub extern "C" fn gudlemi_text_bound(sheet: usize) -> usize
    ensures { result ≡ text_bound sheet }
{
    // the greatest length for which the product and the sum do not wrap
    if 329406144173384848 < sheet {
        return usize::MAX;
    }
    sheet * MOST_LINE + MOST_LAST
}

// The length in bytes of the event at an index of a sheet; 0 at the sheet's end, past it, and where the bytes are no event.
#[unsafe(no_mangle)]
pub extern "C" fn gudlemi_event_length(sheet: &[u8], at: usize) -> usize
    ensures { result ≡ event_length sheet.now at }
{
    match decode::read_event(sheet, Cursor { at }) {
        Ok(Some((_, next))) => next.at - at,
        Ok(None) | Err(_) => 0,
    }
}

// Why the bytes at an index of a sheet are no event: 2 or 3; 0 where they are one, and at the sheet's end and past it.
#[unsafe(no_mangle)]
pub extern "C" fn gudlemi_event_refusal(sheet: &[u8], at: usize) -> u8
    ensures { result ≡ event_refusal sheet.now at }
{
    match decode::read_event(sheet, Cursor { at }) {
        Ok(_) => 0,
        Err(reason) => reason.number(),
    }
}

// The version of the library: 10,000 for its first part, 100 for the second, 1 for the third.
#[unsafe(no_mangle)]
pub extern "C" fn gudlemi_version() -> u32
    ensures { result ≡ version_number }
{
    version::number()
}
