// Input and output of a program: a file read to its end, text written whole, and a failure told apart from an end.
// A call that a signal interrupted, or that found the file not ready, is made again.
#![tactic(auto)]

ghost use Rattle.std.specs.Prelude.{true, ◌≡◌, ◌≤◌, length, OnOk, OnErr};
ghost use Rattle.std.specs.Io.KnownBytes.{Appends, Keeps};
ghost use Rattle.standard_io.specs.Input.{within, Reads};
ghost use Rattle.standard_io.specs.Output.{AppendsSome};

use std::env::{Env, FillError};
use std::fmt::Display;
use std::fs::{File, Files};
use std::io::{Error, ErrorKind, Read, Write};
use std::time::{Clock, Duration};
use std::{io, thread};

// How often a call is made again at most: two years of waiting, since a loop must end.
const MOST_TRIES: u64 = 68719476736;

// Waits for a thousandth of a second.
fn pause(clock: &impl Clock) {
    thread::sleep(clock, Duration::from_millis(1));
}

// Whether what made a call fail passes: a signal that interrupted it, or a file that is not ready, for which this waits.
fn is_passing(clock: &impl Clock, error: &Error) -> bool {
    match error.kind() {
        ErrorKind::WouldBlock => {
            pause(clock);
            true
        }
        ErrorKind::Interrupted => true,
        _ => false,
    }
}

// The bytes of stack that the text of Linux's /proc/self/limits allows; none where it has no number for them.
fn limit_in(text: &str) -> Option<u64> {
    let line = text
        .lines()
        .find_map(|line| line.strip_prefix("Max stack size"))?;
    line.split_whitespace().next()?.parse::<u64>().ok()
}

// The same of an open file, read from its start.
fn limit_of<C: Clock, R: Read>(clock: &C, file: &mut R) -> Option<u64> {
    let mut space = [0; 4096];
    let count = read_file(clock, file, &mut space).ok()?;
    let text = str::from_utf8(&space[..count]).ok()?;
    limit_in(text)
}

// The bytes that the stack may have by the process's limit: the greatest number where there is none, or it could not be told.
fn stack_limit<R: Files + Clock>(rt: &R) -> u64 {
    match File::open(rt, "/proc/self/limits") {
        Ok(mut file) => limit_of(rt, &mut file).unwrap_or(u64::MAX),
        Err(_) => u64::MAX,
    }
}

// Puts the text of a value at the start of a buffer, as much as it has room for, and answers how many bytes those are.
fn show<D: Display + Drop>(value: D, space: &mut [u8]) -> usize
    ensures { result ≤ length space.new }
{
    let most = space.len();
    let mut rest: &mut [u8] = &mut *space;
    let _ = write!(rest, "{value}");
    most - rest.len().min(most)
}

// What `has_stack` says where the stack is too small.
fn write_needed<C: Clock, W: Write>(
    clock: &C,
    messages: &mut W,
    name: &[u8],
    needed: u64,
    limit: u64,
) -> io::Result<()> {
    let mut space = [0; 160];
    let said = format_args!(
        ": needs a stack of {needed} KiB, has {limit} KiB: ulimit -s {needed}\n"
    );
    let length = show(said, &mut space);
    write_text(clock, messages, name)?;
    write_text(clock, messages, &space[..length])
}

// Whether the process may have a stack of so many KiB; where not, a line to the messages says what a program of this name needs.
pub fn has_stack<R: Files + Clock, W: Write>(
    rt: &R,
    messages: &mut W,
    name: &[u8],
    needed: u64,
) -> bool
    ensures { result ≡ true → Keeps (W.contents messages.old) (W.contents messages.new) }
{
    let limit = stack_limit(rt) / 1024;
    let enough = needed <= limit;
    if !enough {
        let _ = write_needed(rt, messages, name, needed, limit);
    }
    enough
}

// Reads an open file to its end, or as much of it as the buffer holds, and answers how many bytes that are; or a read failed.
pub fn read_file<C: Clock, R: Read>(clock: &C, file: &mut R, space: &mut [u8]) -> io::Result<usize>
    ensures in_bounds { within result (length space.new) ≡ true }
    ensures bytes { Reads (R.remaining file.old) (R.remaining file.new) result space.new }
{
    let mut done: usize = 0;
    let mut tries = MOST_TRIES;
    // No method of std's, which say little of the buffer after an error.
    while done < space.len() {
        match file.read(&mut space[done..]) {
            Ok(0) => return Ok(done),
            Ok(more) => done += more,
            Err(error) => {
                if tries == 0 || !is_passing(clock, &error) {
                    return Err(error);
                }
                tries -= 1;
            }
        }
    }
    Ok(done)
}

// The same of standard input.
pub fn read_input<R: io::Input + Clock>(rt: &R, space: &mut [u8]) -> io::Result<usize>
    ensures { within result (length space.new) ≡ true }
{
    let mut file = rt.reader();
    read_file(rt, &mut file, space)
}

// Writes a whole text, or fails. Some of the text may have been written then.
pub fn write_text<C: Clock, W: Write>(clock: &C, file: &mut W, text: &[u8]) -> io::Result<()>
    ensures ok { OnOk result (Appends (W.contents file.old) (W.contents file.new) text.now) }
    ensures err { OnErr result (AppendsSome (W.contents file.old) (W.contents file.new) text.now) }
{
    let mut written: usize = 0;
    let mut tries = MOST_TRIES;
    // No method of std's, which say little of what was written before an error.
    while written < text.len() {
        match file.write(&text[written..]) {
            Ok(0) => return Err(Error::from(ErrorKind::WriteZero)),
            Ok(more) => written += more,
            Err(error) => {
                if tries == 0 || !is_passing(clock, &error) {
                    return Err(error);
                }
                tries -= 1;
            }
        }
    }
    Ok(())
}

// What the system says of an error: its text without the number that std puts behind it.
fn without_number(text: &[u8]) -> &[u8] {
    let Ok(words) = str::from_utf8(text) else {
        return text;
    };
    match words.rsplit_once(" (os error ") {
        Some((said, _)) => said.as_bytes(),
        None => text,
    }
}

// Writes a line to the messages: what failed, as the caller names it, a colon and what the system says of the error. A failure of that is not told.
pub fn tell_failure<C: Clock, W: Write>(clock: &C, messages: &mut W, what: &[u8], error: &Error) {
    let mut space = [0; 320];
    let length = show(error, &mut space);
    let said = without_number(&space[..length]);
    let _ = write_failure(clock, messages, what, said);
}

fn write_failure<C: Clock, W: Write>(
    clock: &C,
    messages: &mut W,
    what: &[u8],
    said: &[u8],
) -> io::Result<()> {
    write_text(clock, messages, what)?;
    write_text(clock, messages, b": ")?;
    write_text(clock, messages, said)?;
    write_text(clock, messages, b"\n")
}

// Whether the program has an argument at this place; its own name stands at 0.
pub fn has_argument(env: &impl Env, place: usize) -> bool {
    let mut space = [];
    !matches!(env.arg(place, &mut space), Err(FillError::NotPresent))
}

// Whether the program's first argument is this word, of at most 16 bytes.
pub fn is_word(env: &impl Env, expected: &[u8]) -> bool {
    let mut word: [u8; 16] = [0; 16];
    let length = env.arg(1, &mut word).unwrap_or(0);
    &word[..length] == expected
}

#[cfg(test)]
mod tests;
