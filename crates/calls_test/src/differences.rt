// Prints a case: the call, its answer, and all that it changed in the line and in the book.
use crate::answers::{number, print_answer, print_phase, text};
use crate::book::{first_changed, print_bytes};
use line::{Lane, Line};
use steps::Outcome;
use view::View;

// A number that is not as it was.
fn print_number(lead: &[u8], was: u32, is: u32) {
    if was != is {
        number(lead, is);
    }
}

fn print_numbers(was: &Line, is: &Line) {
    print_number(b"; lanes ", u32::from(was.lanes), u32::from(is.lanes));
    print_number(b"; capacity ", was.capacity, is.capacity);
    print_number(b"; size ", was.size, is.size);
    print_number(b"; pointer ", was.pointer.0, is.pointer.0);
}

// A view that is not as it was: displacement, extent, blocks in use and all eight blocks, each as start+length.
fn print_view(was: View, is: View) {
    if was == is {
        return;
    }
    number(b"; displacement ", is.displacement);
    number(b", extent ", is.extent);
    number(b", blocks ", is.used);
    for block in &is.block {
        number(b" ", block.start);
        number(b"+", block.length);
    }
}

// The lanes' phases that are not as they were.
fn print_lanes(was: &[Lane], is: &[Lane]) {
    for (i, (was, is)) in was.iter().zip(is).enumerate() {
        if was != is {
            number(b"; lane ", i as u64);
            print_phase(is.phase);
        }
    }
}

// The flags that are not as they were.
fn print_flags(was: &[u8], is: &[u8]) {
    for (i, (was, is)) in was.iter().zip(is).enumerate() {
        if was != is {
            number(b"; flag ", i as u64);
            number(b" now ", *is);
        }
    }
}

// What a call changed; a line and a book that are as they were are told apart from those with a change.
fn print_changes(was: &Line, is: &Line, book: &[u8]) {
    if was == is && first_changed(book) == book.len() {
        text(b", unchanged\n");
        return;
    }
    print_numbers(was, is);
    print_view(was.view, is.view);
    print_lanes(&was.lane, &is.lane);
    print_flags(&was.flag, &is.flag);
    print_bytes(book);
    text(b"\n");
}

// A case: its label, the answer and the changes.
pub fn tell(label: &[u8], line: Line, out: Outcome, book: &[u8]) {
    text(label);
    text(b": ");
    print_answer(out.answer);
    print_changes(&line, &out.line, book);
}
