// linebook: a sheet from standard input, its text to standard output, as `linebook_text::print_sheet` has it; with the argument `version`, the library's.
#![tactic(auto)]

ghost use Rattle.std.specs.Prelude.{◌+◌, ◌≤◌, ◌≡◌, length};
ghost use Rattle.limits.specs.Limits.{most_sheet};
ghost use Rattle.run_text.specs.RunText.{most_text};

use answer_text::MOST_LINE;
use limits::MOST_SHEET;
use linebook_text::print_sheet;
use notation_mistake::is_notation;
use run_text::MOST_LAST;
use standard_io::{has_argument, is_word};
use std::io::Error;

// One byte more than the longest sheet is read, to tell a longer one.
const MOST_READ: usize = MOST_SHEET + 1;

// The longest text of a sheet: a line for each of its bytes, and two lines more.
const MOST_TEXT: usize = MOST_SHEET * MOST_LINE + MOST_LAST;

// The stack that a run takes, in KiB, with what the system keeps there: measured, and rounded up.
const NEEDED_STACK: u64 = 4096;

// A buffer, as a function of which only the length is known where it is used.
fn sheet_buffer() -> [u8; MOST_READ]
    ensures { most_sheet + 1 ≡ length result }
{
    [0; MOST_READ]
}

// Writes to standard error.
fn tell(rt: &HostRuntime, text: &[u8]) {
    let _ = standard_io::write_text(rt, &mut rt.stderr(), text);
}

// Says what failed, and why.
fn tell_failure(rt: &HostRuntime, what: &[u8], error: &Error) {
    standard_io::tell_failure(rt, &mut rt.stderr(), what, error);
}

// Writes to standard output; a failure is told.
fn print(rt: &HostRuntime, text: &[u8]) {
    if let Err(error) = standard_io::write_text(rt, &mut rt.stdout(), text) {
        tell_failure(rt, b"linebook: cannot write standard output", &error);
    }
}

// Prints the first bytes of a buffer.
fn print_first(rt: &HostRuntime, text: &[u8], count: usize)
    requires { count ≤ length text.now }
{
    print(rt, &text[..count]);
}

// Runs a sheet on a book of 65,536 bytes and prints its text, for which a buffer with room is lent.
fn print_in(rt: &HostRuntime, sheet: &[u8], text: &mut [u8])
    requires { most_text most_sheet ≡ length text.old }
{
    let mut book = io::large_buffer();
    if let Ok(count) = print_sheet(sheet, &mut book, text) {
        print_first(rt, text, count);
    }
}

// The same with a buffer of its own, made in place: as a function's result it would lie on the stack more than once where nothing is inlined.
// It is not inlined, so that the buffer is taken only after `main` has looked at the stack (tests/programs).
#[inline(never)]
fn print_run(rt: &HostRuntime, sheet: &[u8]) {
    let mut text = [0; MOST_TEXT];
    print_in(rt, sheet, &mut text);
}

// Says that a sheet is notation by mistake.
fn tell_notation(rt: &HostRuntime) {
    tell(
        rt,
        b"linebook: this looks like notation: run the bytes that the program sheet makes of it\n",
    );
}

// Says what is wrong with bytes that are too many for a sheet.
fn tell_long(rt: &HostRuntime, bytes: &[u8]) {
    if notation::looks_like_notation(bytes) {
        tell_notation(rt);
    } else {
        tell(rt, b"linebook: the sheet is longer than 65536 bytes\n");
    }
}

// Runs the first bytes of a buffer as a sheet, and says where they are none as a whole.
fn run_first(rt: &HostRuntime, space: &[u8], count: usize)
    requires { count ≤ length space.now }
{
    if MOST_SHEET < count {
        print_run(rt, space);
        tell_long(rt, space);
        return;
    }
    let sheet = &space[..count];
    print_run(rt, sheet);
    if is_notation(sheet) {
        tell_notation(rt);
    }
}

// Runs standard input as a sheet. It is not inlined, for its buffer, as `print_run`.
#[inline(never)]
fn run_input(rt: &HostRuntime) {
    let mut space = sheet_buffer();
    match standard_io::read_input(rt, &mut space) {
        Ok(count) => run_first(rt, &space, count),
        Err(error) => tell_failure(rt, b"linebook: cannot read standard input", &error),
    }
}

// Prints the library's version.
fn print_version(rt: &HostRuntime) {
    print(rt, &version::line());
}

// Whether the process may have the stack that a run takes.
fn has_stack(rt: &HostRuntime) -> bool {
    standard_io::has_stack(rt, &mut rt.stderr(), b"linebook", NEEDED_STACK)
}

fn main(rt: HostRuntime) {
    if !has_argument(&rt, 1) {
        if has_stack(&rt) {
            run_input(&rt);
        }
    } else if !has_argument(&rt, 2) && is_word(&rt, b"version") {
        print_version(&rt);
    } else {
        tell(
            &rt,
            b"linebook: use: linebook < SHEET, linebook version or linebook help\n",
        );
    }
}
