// What is said of notation that is refused, stored in a lent buffer: the place, what was expected there and what was found.
#![tactic(auto)]

ghost use Rattle.std.specs.Prelude.{◌+◌, ◌≤◌, ◌≡◌, [], ◌∷◌, ◌++◌, Err, length};
ghost use Rattle.printout.specs.Text.{ascii};
ghost use Rattle.number_text.specs.Stored.{Stored};
ghost use Rattle.notation.specs.declared.ParseError.{ParseError};
ghost use Rattle.notation_text.specs.Message.{byte_text, character_line, found_line, most_message, other_line, parse_line, place_text};

use notation::{ParseError, Spot};
use number_text::hex_digit;
use word_text::{BLANK, LINE_END, put_number, put_word};

// A byte by its number, and the byte after it. All functions here return the index after what they stored.
#[tactic(auto, using(number_text::proofs::Stores::and_then, number_text::proofs::Stores::then_byte, number_text::proofs::Stores::two_bytes, number_text::proofs::Stores::one_byte, notation::proofs::Characters::two_digits))]
fn put_byte(out: &mut [u8], at: usize, c: u8, after: u8) -> usize
    requires { at + 12 ≤ length out.old }
    ensures { Stored (byte_text c ++ after ∷ []) out.old at out.new result × (result ≡ at + 12) }
{
    let next = put_word(out, at, b"the byte", BLANK);
    out[next] = hex_digit(u64::from(c) / 16);
    out[next + 1] = hex_digit(u64::from(c) % 16);
    out[next + 2] = after;
    next + 3
}

// The byte of a kind, 01 to 0C, with which the events of a sheet begin.
fn put_kind(out: &mut [u8], at: usize, c: u8) -> usize
    requires { at + 57 ≤ length out.old }
    ensures { Stored (byte_text c ++ ascii ": the text looks like a sheet's bytes already\n") out.old at out.new result × (result ≤ at + 57) }
{
    let next = put_byte(out, at, c, b':');
    put_word(
        out,
        next,
        b" the text looks like a sheet's bytes already",
        LINE_END,
    )
}

// A character that can be printed, in quotes.
#[tactic(auto, using(number_text::proofs::Stores::one_byte, number_text::proofs::Stores::then_byte))]
fn put_quoted(out: &mut [u8], at: usize, c: u8) -> usize
    requires { at + 57 ≤ length out.old }
    ensures { Stored (ascii "'" ++ c ∷ ascii "'\n") out.old at out.new result × (result ≤ at + 57) }
{
    out[at] = b'\'';
    out[at + 1] = c;
    out[at + 2] = b'\'';
    out[at + 3] = LINE_END;
    at + 4
}

// A character that has no name here.
fn put_other(out: &mut [u8], at: usize, c: u8) -> usize
    requires { at + 57 ≤ length out.old }
    ensures { Stored (other_line c) out.old at out.new result × (result ≤ at + 57) }
{
    match c {
        1..=12 => put_kind(out, at, c),
        33..=126 => put_quoted(out, at, c),
        _ => put_byte(out, at, c, LINE_END),
    }
}

// The character that was found, to the line's end.
#[tactic(auto, unfolding(crate::specs::Message::character_line))]
fn put_character(out: &mut [u8], at: usize, c: u8) -> usize
    requires { at + 57 ≤ length out.old }
    ensures { Stored (character_line c) out.old at out.new result × (result ≤ at + 57) }
{
    match c {
        b' ' => put_word(out, at, b"a blank", LINE_END),
        b'\t' => put_word(out, at, b"a tab", LINE_END),
        b',' => put_word(out, at, b"a comma", LINE_END),
        b'\n' | b'\r' => put_word(out, at, b"a line end", LINE_END),
        b'#' => put_word(out, at, b"a comment", LINE_END),
        _ => put_other(out, at, c),
    }
}

// What was found, to the line's end.
fn put_found(out: &mut [u8], at: usize, found: Option<u8>) -> usize
    requires { at + 57 ≤ length out.old }
    ensures { Stored (found_line found) out.old at out.new result × (result ≤ at + 57) }
{
    match found {
        Some(c) => put_character(out, at, c),
        None => put_word(out, at, b"the end of the text", LINE_END),
    }
}

// A spot, at the buffer's start.
fn put_place(out: &mut [u8], spot: Spot) -> usize
    requires { most_message ≤ length out.old }
    ensures { Stored (place_text spot) out.old 0 out.new result × (result ≤ 55) }
{
    let to1 = put_word(out, 0, b"line", BLANK);
    let to2 = put_number(out, to1, spot.line, b',');
    let to3 = put_word(out, to2, b" column", BLANK);
    put_number(out, to3, spot.column, b':')
}

// A spot where a digit is missing.
fn put_no_digit(out: &mut [u8], spot: Spot, c: u8) -> usize
    requires { most_message ≤ length out.old }
    ensures { Stored (parse_line (Err (ParseError.NoDigit spot c))) out.old 0 out.new result × (result ≤ most_message) }
{
    let next = put_place(out, spot);
    let then = put_word(out, next, b" expected a hexadecimal digit, found", BLANK);
    put_character(out, then, c)
}

// A spot where the second digit of a byte is missing.
fn put_no_second(out: &mut [u8], spot: Spot, found: Option<u8>) -> usize
    requires { most_message ≤ length out.old }
    ensures { Stored (parse_line (Err (ParseError.NoSecond spot found))) out.old 0 out.new result × (result ≤ most_message) }
{
    let next = put_place(out, spot);
    let then = put_word(
        out,
        next,
        b" expected the second digit of a byte, found",
        BLANK,
    );
    put_found(out, then, found)
}

// The line of a text that is refused, at the buffer's start.
#[tactic(auto, unfolding(crate::specs::Message::parse_line))]
fn put_error(out: &mut [u8], error: ParseError) -> usize
    requires { most_message ≤ length out.old }
    ensures { Stored (parse_line (Err error)) out.old 0 out.new result × (result ≤ most_message) }
{
    match error {
        ParseError::NoDigit(spot, c) => put_no_digit(out, spot, c),
        ParseError::NoSecond(spot, found) => put_no_second(out, spot, found),
        ParseError::TooLong => {
            put_word(out, 0, b"the text is longer than 1048576 bytes", LINE_END)
        }
        ParseError::TooShort => put_word(out, 0, b"the bytes do not fit the buffer", LINE_END),
    }
}

// The line of a parse that failed, at the buffer's start, of at most 156 bytes; one that did not fail has none.
#[tactic(auto, unfolding(crate::specs::Message::parse_line))]
pub fn show_parse(out: &mut [u8], parsed: Result<usize, ParseError>) -> usize
    requires { most_message ≤ length out.old }
    ensures { Stored (parse_line parsed) out.old 0 out.new result × (result ≤ most_message) }
{
    match parsed {
        Ok(_) => 0,
        Err(error) => put_error(out, error),
    }
}
