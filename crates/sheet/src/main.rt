// sheet: the papers' notation from standard input to a sheet's bytes on standard output; with the word `show`, a sheet's bytes to one
// readable line an event; with `trace`, its run, a line an event; with `version`, the library's version. Whatever it refuses or cannot do is told on standard error.
#![tactic(auto)]

ghost use Rattle.std.specs.Prelude.{◌≤◌, ◌≡◌, length};
ghost use Rattle.trace_text.specs.Steps.{most_end};

use event::{Cursor, Event, Refusal};
use limits::MOST_SHEET;
use notation::{MOST_NOTATION, ParseError};
use standard_io::{has_argument, is_word};
use std::io::Error;
use trace_text::Tracing;
use trace_text::summary::put_end;

// The bytes of the longest text: a byte has two digits.
const MOST_BYTES: usize = MOST_NOTATION / 2;

// Room for a line.
const LINE: usize = 640;

// The stack that is taken at most, in KiB, with what the system keeps there: measured, and rounded up.
const NEEDED_STACK: u64 = 2048;

// The buffers, as functions of which only the lengths are known where they are used.
fn text_buffer() -> [u8; MOST_NOTATION + 1]
    ensures { 1048577 ≡ length result }
{
    [0; MOST_NOTATION + 1]
}

fn bytes_buffer() -> [u8; MOST_BYTES]
    ensures { 524288 ≡ length result }
{
    [0; MOST_BYTES]
}

fn line_buffer() -> [u8; LINE]
    ensures { 640 ≡ length result }
{
    [0; LINE]
}

// Says what failed, and why.
fn tell_failure(rt: &HostRuntime, what: &[u8], error: &Error) {
    standard_io::tell_failure(rt, &mut rt.stderr(), what, error);
}

// Writes to standard output; false, and a line on standard error, where it fails.
fn print(rt: &HostRuntime, text: &[u8]) -> bool {
    match standard_io::write_text(rt, &mut rt.stdout(), text) {
        Ok(()) => true,
        Err(error) => {
            tell_failure(rt, b"sheet: cannot write standard output", &error);
            false
        }
    }
}

// Prints the first bytes of a buffer; false where that fails.
fn print_first(rt: &HostRuntime, text: &[u8], count: usize) -> bool
    requires { count ≤ length text.now }
{
    print(rt, &text[..count])
}

// Writes a line to standard error, after the program's name.
fn tell(rt: &HostRuntime, line: &[u8]) {
    let _ = standard_io::write_text(rt, &mut rt.stderr(), b"sheet: ");
    let _ = standard_io::write_text(rt, &mut rt.stderr(), line);
}

// Tells the first bytes of a buffer.
fn tell_first(rt: &HostRuntime, line: &[u8], count: usize)
    requires { count ≤ length line.now }
{
    tell(rt, &line[..count]);
}

// Tells why a text is refused.
fn tell_mistake(rt: &HostRuntime, error: ParseError) {
    let mut line = line_buffer();
    let end = notation_text::show_parse(&mut line, Err(error));
    tell_first(rt, &line, end);
}

// The bytes of a text, or what is wrong with it.
fn print_bytes(rt: &HostRuntime, text: &[u8]) {
    let mut bytes = bytes_buffer();
    match notation::parse(text, &mut bytes) {
        Ok(count) => {
            print_first(rt, &bytes, count);
        }
        Err(error) => tell_mistake(rt, error),
    }
}

// The line of an event; false where it could not be written.
fn print_event(rt: &HostRuntime, count: u64, event: Event) -> bool {
    let mut line = line_buffer();
    let end = event_text::show_event(&mut line, count, event);
    print_first(rt, &line, end)
}

// The line at bytes that are no event.
fn print_refusal(rt: &HostRuntime, count: u64, byte: u64, refusal: Refusal) {
    let mut line = line_buffer();
    let end = event_text::show_refusal(&mut line, count, byte, refusal.number());
    print_first(rt, &line, end);
}

// A line an event, up to the sheet's end or to bytes that are no event; false at those. A line that could not be written ends it, too.
fn print_events(rt: &HostRuntime, sheet: &[u8]) -> bool {
    let mut at = 0;
    let mut count = 0;
    // No iterator, which would not tell the end from bytes that are refused.
    loop {
        match decode::read_event(sheet, Cursor { at }) {
            Ok(Some((event, next))) => {
                if !print_event(rt, count, event) {
                    return true;
                }
                at = next.at;
                count += 1;
            }
            Ok(None) => return true,
            Err(refusal) => {
                print_refusal(rt, count, at as u64, refusal);
                return false;
            }
        }
    }
}

// The end of a trace; true where all bytes of the sheet, so many, are events.
fn print_trace_end(rt: &HostRuntime, out: &mut [u8], tracing: Tracing, bytes: usize) -> bool
    requires { most_end ≤ length out.old }
{
    let end = put_end(out, tracing);
    print_first(rt, out, end);
    tracing.at == bytes
}

// The trace of a sheet's run, a line an event; true where all its bytes are events, or a line could not be written.
fn print_trace(rt: &HostRuntime, sheet: &[u8]) -> bool {
    let mut book = io::large_buffer();
    let mut out = io::large_buffer();
    let legend = trace_text::put_legend(&mut out);
    if !print_first(rt, &out, legend) {
        return true;
    }
    let mut tracing = trace_text::start();
    loop {
        let traced = trace_text::step(tracing, &mut book, sheet, &mut out);
        if !print_first(rt, &out, traced.length) {
            return true;
        }
        tracing = traced.next;
        if !traced.more {
            return print_trace_end(rt, &mut out, tracing, sheet.len());
        }
    }
}

// Whether bytes are notation by mistake, by their look, which is told here.
fn is_notation(rt: &HostRuntime, sheet: &[u8]) -> bool {
    let looks = notation::looks_like_notation(sheet);
    if looks {
        tell(
            rt,
            b"this looks like notation: give it the bytes that sheet makes of that\n",
        );
    }
    looks
}

// Whether a sheet is too long, which is told here; notation by mistake is told as such.
fn is_too_long(rt: &HostRuntime, sheet: &[u8]) -> bool {
    let too_long = MOST_SHEET < sheet.len();
    if too_long && !is_notation(rt, sheet) {
        tell(rt, b"the sheet is longer than 65536 bytes\n");
    }
    too_long
}

// The lines of a sheet, and a message where it has bytes that are no event.
fn show(rt: &HostRuntime, sheet: &[u8]) {
    if is_too_long(rt, sheet) || print_events(rt, sheet) || is_notation(rt, sheet) {
        return;
    }
    tell(rt, b"the sheet has bytes that are no event\n");
}

// The trace of a sheet's run. Bytes that are no event are an answer of the run, as in linebook, and no fault unless they are notation.
fn trace(rt: &HostRuntime, sheet: &[u8]) {
    if !is_too_long(rt, sheet) && !print_trace(rt, sheet) {
        is_notation(rt, sheet);
    }
}

// What is to be done with standard input.
#[derive(Clone, Copy, Debug, PartialEq, Eq)]
enum Task {
    Bytes,
    Show,
    Trace,
}

// Does it with the first bytes of a buffer.
fn work_on(rt: &HostRuntime, task: Task, space: &[u8], count: usize)
    requires { count ≤ length space.now }
{
    let text = &space[..count];
    match task {
        Task::Bytes => print_bytes(rt, text),
        Task::Show => show(rt, text),
        Task::Trace => trace(rt, text),
    }
}

// Does it with standard input: one byte more than the longest text is read, to tell a longer one.
// It is not inlined, so that its buffers are taken only after its callers have looked at the stack (tests/programs).
#[inline(never)]
fn work(rt: &HostRuntime, task: Task) {
    let mut space = text_buffer();
    match standard_io::read_input(rt, &mut space) {
        Ok(count) => work_on(rt, task, &space, count),
        Err(error) => tell_failure(rt, b"sheet: cannot read standard input", &error),
    }
}

// Whether there is stack enough for `work`.
fn has_stack(rt: &HostRuntime) -> bool {
    standard_io::has_stack(rt, &mut rt.stderr(), b"sheet", NEEDED_STACK)
}

// Does it where there is stack enough.
fn start(rt: &HostRuntime, task: Task) {
    if has_stack(rt) {
        work(rt, task);
    }
}

// What the one argument asks for; false where it is no word that is known.
fn is_done(rt: &HostRuntime) -> bool {
    if is_word(rt, b"show") {
        start(rt, Task::Show);
    } else if is_word(rt, b"trace") {
        start(rt, Task::Trace);
    } else if is_word(rt, b"version") {
        print(rt, &version::line());
    } else {
        return false;
    }
    true
}

fn main(rt: HostRuntime) {
    if !has_argument(&rt, 1) {
        start(&rt, Task::Bytes);
        return;
    }
    if !has_argument(&rt, 2) && is_done(&rt) {
        return;
    }
    tell(
        &rt,
        b"use: sheet < NOTATION > SHEET, sheet show < SHEET, sheet trace < SHEET, sheet version or sheet help\n",
    );
}
