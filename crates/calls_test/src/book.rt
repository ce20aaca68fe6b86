// The lent book: what it is filled with before a call, and which bytes a call changed.
ghost use Rattle.std.specs.Prelude.{◌≤◌, length};

use crate::answers::{digits, number, text};

// The byte that the book has at an index before a call; the first 80 all differ, and none is 0.
fn fresh(i: usize) -> u8 {
    (i % 200) as u8 + 16
}

// Fills a lent book.
pub fn fill(book: &mut [u8]) {
    for (i, byte) in book.iter_mut().enumerate() {
        *byte = fresh(i);
    }
}

// The first byte that is not as before the call, or the book's length.
pub fn first_changed(book: &[u8]) -> usize {
    for (i, byte) in book.iter().enumerate() {
        if *byte != fresh(i) {
            return i;
        }
    }
    book.len()
}

// The end of the bytes that are not as before the call: those from here on are.
fn end_changed(book: &[u8]) -> usize
    ensures { result ≤ length book.now }
{
    for last in (0..book.len()).rev() {
        if book[last] != fresh(last) {
            return last + 1;
        }
    }
    0
}

fn all_zero(bytes: &[u8]) -> bool {
    bytes.iter().all(|byte| *byte == 0)
}

// Bytes in hexadecimal; a run of zeros in a word.
fn print_content(bytes: &[u8]) {
    if all_zero(bytes) {
        text(b" zero");
        return;
    }
    text(b" ");
    digits(bytes);
}

// The bytes from the first to the last that is not as before the call.
pub fn print_bytes(book: &[u8]) {
    let first = first_changed(book);
    let end = end_changed(book);
    if end <= first {
        return;
    }
    number(b"; bytes ", first as u64);
    number(b" to ", (end - 1) as u64);
    print_content(&book[first..end]);
}
