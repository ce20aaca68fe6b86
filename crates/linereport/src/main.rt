// linereport: runs the sheets in the files that its arguments name, each from an unopened line over one report of waiting, and prints the report as a table;
// with the word `version`, the library's version. Whatever it cannot read or do is told on standard error.
#![tactic(auto)]

ghost use Rattle.std.specs.Prelude.{◌+◌, ◌≤◌, ◌≡◌, length};
ghost use Rattle.limits.specs.Limits.{most_sheet};

use answer_text::MOST_LINE;
use limits::MOST_SHEET;
use line::Line;
use notation_mistake::is_notation;
use report::Report;
use report_text::print_table;
use run::run_reported;
use run_text::MOST_LAST;
use standard_io::{has_argument, is_word};
use std::env::Env;
use std::fs::File;
use std::io::{Error, Read};

// One byte more than the longest sheet is read, to tell a longer one.
const MOST_READ: usize = MOST_SHEET + 1;

// The longest text of a sheet: a line for each of its bytes, and two lines more.
const MOST_TEXT: usize = MOST_SHEET * MOST_LINE + MOST_LAST;

// The stack that a run takes, in KiB: measured, with room for the most names that the system passes on by this limit, a quarter of it.
const NEEDED_STACK: u64 = 5376;

// What the system says of a name that is no text, by its number: a name is UTF-8 here.
const NO_TEXT: i32 = 84;

// A buffer, as a function of which only the length is known where it is used.
fn sheet_buffer() -> [u8; MOST_READ]
    ensures { most_sheet + 1 ≡ length result }
{
    [0; MOST_READ]
}

// Writes to standard error.
fn say(rt: &HostRuntime, text: &[u8]) {
    let _ = standard_io::write_text(rt, &mut rt.stderr(), text);
}

// Writes a line to standard error about a file: the program's name, the file's, and what is said of it.
fn tell(rt: &HostRuntime, name: &[u8], what: &[u8]) {
    say(rt, b"linereport: ");
    say(rt, name);
    say(rt, what);
}

// Says that a file could not be opened or read, and why.
fn tell_unread(rt: &HostRuntime, name: &[u8], error: &Error) {
    say(rt, b"linereport: cannot read ");
    standard_io::tell_failure(rt, &mut rt.stderr(), name, error);
}

// Says that an argument is too long for a name.
fn tell_unnamed(rt: &HostRuntime, place: usize) {
    let mut number = [0; 20];
    let length = io::decimal(place as u64, &mut number);
    say(rt, b"linereport: cannot read argument ");
    say(rt, &number[..length]);
    say(rt, b": the name is longer than 4095 bytes\n");
}

// Says that a file is notation by mistake.
fn tell_notation(rt: &HostRuntime, name: &[u8]) {
    tell(
        rt,
        name,
        b" looks like notation: run the bytes that the program sheet makes of it\n",
    );
}

// Says what is wrong with a file whose bytes are too many for a sheet.
fn tell_long(rt: &HostRuntime, name: &[u8], bytes: &[u8]) {
    if notation::looks_like_notation(bytes) {
        tell_notation(rt, name);
    } else {
        tell(rt, name, b" is longer than 65536 bytes\n");
    }
}

// Runs a sheet from an unopened line on a book of 65,536 zeros; the text of the run, for which a buffer with room is lent, is not printed.
fn run_in(sheet: &[u8], text: &mut [u8], report: Report) -> Report {
    let mut book = io::large_buffer();
    run_reported(Line::unopened(), &mut book, sheet, text, report).report
}

// The same with a buffer of its own, made in place: as a function's result it would lie on the stack more than once where nothing is inlined.
// It is not inlined, so that the buffer is taken only after `main` has looked at the stack (tests/programs).
#[inline(never)]
fn run_sheet(sheet: &[u8], report: Report) -> Report {
    let mut text = [0; MOST_TEXT];
    run_in(sheet, &mut text, report)
}

// Runs the first bytes of a buffer as a sheet. Too many are told and not run; notation is told and run, as in linebook.
fn run_first(rt: &HostRuntime, name: &[u8], space: &[u8], count: usize, report: Report) -> Report
    requires { count ≤ length space.now }
{
    if MOST_SHEET < count {
        tell_long(rt, name, space);
        return report;
    }
    let sheet = &space[..count];
    if is_notation(sheet) {
        tell_notation(rt, name);
    }
    run_sheet(sheet, report)
}

// Runs an open file as a sheet. It is not inlined, for its buffer, as `run_sheet`.
#[inline(never)]
fn run_open(rt: &HostRuntime, name: &[u8], file: &mut impl Read, report: Report) -> Report {
    let mut space = sheet_buffer();
    match standard_io::read_file(rt, file, &mut space) {
        Ok(count) => run_first(rt, name, &space, count, report),
        Err(error) => {
            tell_unread(rt, name, &error);
            report
        }
    }
}

// Runs a file as a sheet.
fn run_file(rt: &HostRuntime, name: &[u8], report: Report) -> Report {
    let Ok(path) = str::from_utf8(name) else {
        tell_unread(rt, name, &Error::from_raw_os_error(NO_TEXT));
        return report;
    };
    match File::open(rt, path) {
        Ok(mut file) => run_open(rt, name, &mut file, report),
        Err(error) => {
            tell_unread(rt, name, &error);
            report
        }
    }
}

// Runs the file that an argument names. An argument of more bytes than the buffer has is told and not cut.
fn run_argument(rt: &HostRuntime, place: usize, report: Report) -> Report {
    let mut space = io::buffer();
    match rt.arg(place, &mut space) {
        Ok(length) => run_file(rt, &space[..length], report),
        Err(_) => {
            tell_unnamed(rt, place);
            report
        }
    }
}

// The report of the files that the arguments name, of which there is one at least.
fn run_arguments(rt: &HostRuntime) -> Report {
    let mut report = Report::empty();
    for place in 1..usize::MAX {
        if !has_argument(rt, place) {
            break;
        }
        report = run_argument(rt, place, report);
    }
    report
}

// Writes to standard output; a failure is told.
fn print(rt: &HostRuntime, text: &[u8]) {
    if let Err(error) = standard_io::write_text(rt, &mut rt.stdout(), text) {
        standard_io::tell_failure(
            rt,
            &mut rt.stderr(),
            b"linereport: cannot write standard output",
            &error,
        );
    }
}

// Prints the first bytes of a buffer.
fn print_first(rt: &HostRuntime, text: &[u8], count: usize)
    requires { count ≤ length text.now }
{
    print(rt, &text[..count]);
}

// Prints a report as a table.
fn print_report(rt: &HostRuntime, report: Report) {
    let mut out = io::large_buffer();
    if let Ok(count) = print_table(report, &mut out) {
        print_first(rt, &out, count);
    }
}

// What a word alone asks for; false where the one argument is a file's name.
fn is_done(rt: &HostRuntime) -> bool {
    if is_word(rt, b"version") {
        print(rt, &version::line());
    } else if is_word(rt, b"help") {
        tell_use(rt);
    } else {
        return false;
    }
    true
}

// Tells the program's use.
fn tell_use(rt: &HostRuntime) {
    say(
        rt,
        b"linereport: use: linereport SHEET.., linereport version or linereport help\n",
    );
}

// Whether the process may have the stack that a run takes.
fn has_stack(rt: &HostRuntime) -> bool {
    standard_io::has_stack(rt, &mut rt.stderr(), b"linereport", NEEDED_STACK)
}

fn main(rt: HostRuntime) {
    if !has_argument(&rt, 1) {
        tell_use(&rt);
        return;
    }
    if !has_argument(&rt, 2) && is_done(&rt) {
        return;
    }
    if has_stack(&rt) {
        let report = run_arguments(&rt);
        print_report(&rt, report);
    }
}
