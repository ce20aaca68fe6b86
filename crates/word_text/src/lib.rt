// Words, numbers and lines of them, stored in a lent buffer: each shape of line that an answer has. Each requires the room for its text.
// A function takes the buffer and an index and answers the index after the text. As methods of a struct with both, lent by &mut, they took 15 instructions
// more a line (191 in place of 176), and each a clause more, that the struct still holds the same buffer.
#![tactic(auto)]

ghost use Rattle.std.specs.Prelude.{[], ◌∷◌, ◌++◌, ◌+◌, ◌≤◌, ◌<◌, length};
ghost use Rattle.printout.specs.Text.{ascii};
ghost use Rattle.printout.specs.Print.{decimal, hex_in, wakes_words, words};
ghost use Rattle.number_text.specs.Stored.{Stored};

// What stands between two words, and after the last.
pub const BLANK: u8 = b' ';

pub const LINE_END: u8 = b'\n';

// A word and the byte after it, from an index on; the index after both.
pub fn put_word(out: &mut [u8], at: usize, word: &[u8], after: u8) -> usize
    requires { at + length word.now < length out.old }
    ensures { Stored (word.now ++ after ∷ []) out.old at out.new result }
{
    let end = at + word.len();
    out[at..end].copy_from_slice(word);
    out[end] = after;
    end + 1
}

// A number in decimal and the byte after it.
pub fn put_number(out: &mut [u8], at: usize, n: u64, after: u8) -> usize
    requires { at + length (decimal n) < length out.old }
    ensures { Stored (decimal n ++ after ∷ []) out.old at out.new result }
{
    let end = number_text::put_decimal(out, at, n);
    out[end] = after;
    end + 1
}

// The same for a number that mostly has one or two digits, such as a lane's: small enough to be inlined where it is used.
#[tactic(auto, using(number_text::proofs::Stores::and_then, number_text::proofs::Stores::one_byte, number_text::proofs::Stores::then_byte, number_text::proofs::Stores::stored_length, number_text::proofs::Decimal::decimal_last, number_text::proofs::Decimal::decimal_two))]
pub fn put_count(out: &mut [u8], at: usize, n: u64, after: u8) -> usize
    requires { at + length (decimal n) < length out.old }
    ensures { Stored (decimal n ++ after ∷ []) out.old at out.new result }
{
    if n < 10 {
        out[at] = b'0' + n as u8;
        out[at + 1] = after;
        at + 2
    } else if n < 100 {
        let end = number_text::put_pair(out, at, n);
        out[end] = after;
        end + 1
    } else {
        put_number(out, at, n, after)
    }
}

// A line of a word and a number.
#[tactic(auto, using(number_text::proofs::Stores::and_then, crate::proofs::Words::one_length, crate::proofs::Words::past), unfolding(printout::specs::Print::words))]
pub fn put_one(out: &mut [u8], at: usize, word: &[u8], n: u64) -> usize
    requires { at + length (words (word.now ∷ decimal n ∷ [])) ≤ length out.old }
    ensures { Stored (words (word.now ∷ decimal n ∷ [])) out.old at out.new result }
{
    let next = put_word(out, at, word, BLANK);
    put_number(out, next, n, LINE_END)
}

// A line of a word and a number that mostly has one or two digits; apart from `put_one`, since it is inlined with `put_count`.
#[tactic(auto, using(number_text::proofs::Stores::and_then, crate::proofs::Words::one_length, crate::proofs::Words::past), unfolding(printout::specs::Print::words))]
pub fn put_counted(out: &mut [u8], at: usize, word: &[u8], n: u64) -> usize
    requires { at + length (words (word.now ∷ decimal n ∷ [])) ≤ length out.old }
    ensures { Stored (words (word.now ∷ decimal n ∷ [])) out.old at out.new result }
{
    let next = put_word(out, at, word, BLANK);
    put_count(out, next, n, LINE_END)
}

// A line of a word and two numbers.
#[tactic(auto, using(number_text::proofs::Stores::and_then, crate::proofs::Words::two_length, crate::proofs::Words::past), unfolding(printout::specs::Print::words))]
pub fn put_two(out: &mut [u8], at: usize, word: &[u8], a: u64, b: u64) -> usize
    requires { at + length (words (word.now ∷ decimal a ∷ decimal b ∷ [])) ≤ length out.old }
    ensures { Stored (words (word.now ∷ decimal a ∷ decimal b ∷ [])) out.old at out.new result }
{
    let first = put_word(out, at, word, BLANK);
    let second = put_number(out, first, a, BLANK);
    put_number(out, second, b, LINE_END)
}

// A record in hexadecimal.
#[tactic(auto, using(number_text::proofs::Stores::and_then, number_text::proofs::Stores::one_byte, crate::proofs::Words::one_length, crate::proofs::Words::past, number_text::proofs::Hex::hex_length), unfolding(printout::specs::Print::words))]
pub fn put_record(out: &mut [u8], at: usize, content: u64) -> usize
    requires { at + length (words (ascii "record" ∷ hex_in 16 content ∷ [])) ≤ length out.old }
    ensures { Stored (words (ascii "record" ∷ hex_in 16 content ∷ [])) out.old at out.new result }
{
    let next = put_word(out, at, b"record", BLANK);
    let end = number_text::put_hex(out, next, content);
    out[end] = LINE_END;
    end + 1
}

// `wakes` and the lane, or `none`.
#[tactic(auto, using(number_text::proofs::Stores::and_then), unfolding(printout::specs::Print::words))]
fn put_wakes(out: &mut [u8], at: usize, wakes: Option<u8>) -> usize
    requires { at + length (words (wakes_words wakes)) ≤ length out.old }
    ensures { Stored (words (wakes_words wakes)) out.old at out.new result }
{
    match wakes {
        Some(i) => put_counted(out, at, b"wakes", u64::from(i)),
        None => put_word(out, at, b"wakes none", LINE_END),
    }
}

// A region: its start, its count and the lane woken.
#[tactic(auto, using(number_text::proofs::Stores::and_then, crate::proofs::Words::region_length, crate::proofs::Words::before_wakes, crate::proofs::Words::past), unfolding(printout::specs::Print::words))]
pub fn put_region(out: &mut [u8], at: usize, start: u64, count: u64, wakes: Option<u8>) -> usize
    requires { at + length (words (ascii "region" ∷ decimal start ∷ decimal count ∷ wakes_words wakes)) ≤ length out.old }
    ensures { Stored (words (ascii "region" ∷ decimal start ∷ decimal count ∷ wakes_words wakes)) out.old at out.new result }
{
    let first = put_word(out, at, b"region", BLANK);
    let second = put_number(out, first, start, BLANK);
    let third = put_count(out, second, count, BLANK);
    put_wakes(out, third, wakes)
}

// A release: the lane woken.
#[tactic(auto, using(number_text::proofs::Stores::and_then, crate::proofs::Words::wakes_length, crate::proofs::Words::before_wakes, crate::proofs::Words::past), unfolding(printout::specs::Print::words))]
pub fn put_freed(out: &mut [u8], at: usize, wakes: Option<u8>) -> usize
    requires { at + length (words (ascii "freed" ∷ wakes_words wakes)) ≤ length out.old }
    ensures { Stored (words (ascii "freed" ∷ wakes_words wakes)) out.old at out.new result }
{
    let next = put_word(out, at, b"freed", BLANK);
    put_wakes(out, next, wakes)
}
