// The functions that C and Rust programs link, on numbers and byte slices: a slice is a pointer and a length (embed/gudlemi.h). Each calls the library's function of
// its name, and promises what that does.
#![tactic(auto)]

ghost use Rattle.std.specs.Prelude.{◌≡◌};
ghost use Rattle.embed.specs.Embedded.{LinkedMeets, LinkedRun, event_length, event_refusal, linked_of, text_bound};
ghost use Rattle.report.specs.Rows.{mean_of, remainder_of};
ghost use Rattle.steps.specs.State.{fresh};
ghost use Rattle.version.specs.Version.{version_number};

use report::Report;

mod single_calls;

// Runs a whole sheet from an unopened line over a lent book, the printed lines at the start of `text`; the answer is their length, or the greatest number where
// `text` may be too short, with nothing altered. Its own report is dropped, so that 17 comes only for a sheet that is too long.
#[unsafe(no_mangle)]
pub extern "C" fn gudlemi_run(sheet: &[u8], book: &mut [u8], text: &mut [u8]) -> usize
    ensures { LinkedRun (fresh book.old) sheet.now text.old result book.new text.new }
{
    embed::gudlemi_run(sheet, book, text)
}

// Runs a whole sheet as `gudlemi_run` does, over a lent report, which grows in place.
#[unsafe(no_mangle)]
pub extern "C" fn gudlemi_run_reported(
    sheet: &[u8],
    book: &mut [u8],
    text: &mut [u8],
    report: &mut Report,
) -> usize
    ensures { LinkedMeets (fresh book.old) report.old sheet.now text.old (linked_of result report.new) book.new text.new }
{
    embed::gudlemi_run_reported(sheet, book, text, report)
}

// The whole part of the mean of a report's row, by its times and its sum; 0 where there is no time.
#[unsafe(no_mangle)]
pub extern "C" fn gudlemi_mean(times: u64, sum: u64) -> u64
    ensures { result ≡ mean_of times sum }
{
    embed::gudlemi_mean(times, sum)
}

// What remains of the sum; 0 where there is no time.
#[unsafe(no_mangle)]
pub extern "C" fn gudlemi_remainder(times: u64, sum: u64) -> u64
    ensures { result ≡ remainder_of times sum }
{
    embed::gudlemi_remainder(times, sum)
}

// A length of `text` that is enough for any sheet of this length, or the greatest number where there is none.
#[unsafe(no_mangle)]
pub extern "C" fn gudlemi_text_bound(sheet: usize) -> usize
    ensures { result ≡ text_bound sheet }
{
    embed::gudlemi_text_bound(sheet)
}

// The length in bytes of the event at an index of a sheet; 0 at the sheet's end, past it, and where the bytes are no event.
#[unsafe(no_mangle)]
pub extern "C" fn gudlemi_event_length(sheet: &[u8], at: usize) -> usize
    ensures { result ≡ event_length sheet.now at }
{
    embed::gudlemi_event_length(sheet, at)
}

// Why the bytes at an index of a sheet are no event: 2 or 3; 0 where they are one, and at the sheet's end and past it.
#[unsafe(no_mangle)]
pub extern "C" fn gudlemi_event_refusal(sheet: &[u8], at: usize) -> u8
    ensures { result ≡ event_refusal sheet.now at }
{
    embed::gudlemi_event_refusal(sheet, at)
}

// The version of the library: 10,000 for its first part, 100 for the second, 1 for the third.
#[unsafe(no_mangle)]
pub extern "C" fn gudlemi_version() -> u32
    ensures { result ≡ version_number }
{
    embed::gudlemi_version()
}
