// The number of a printed line and the blank after it, kept as the bytes that are stored and counted up in the last digit.
#![tactic(auto)]

ghost use Rattle.std.specs.Prelude.{◌≡◌, [], ◌∷◌, ◌+◌, ◌-◌, ◌/◌, ◌%◌, ◌≤◌, ◌<◌, length};
ghost use Rattle.event.specs.BigEndian.{number_of};
ghost use Rattle.line_number.specs.Numbered.{InDigits, Keeps, Numbered, number_in};

use encode_fields::Field;
use word_text::{BLANK, put_number};

// `word` has the bytes of the number and of a blank, the first highest, and `width` is how many they are; `unit` is 1 in the byte of the last digit; `left` is
// how many numbers, from this one on, have the same digits but the last, and `ten` is the first after those. A width of 0: no bytes are kept.
#[derive(Clone, Copy)]
pub struct LineNumber {
    pub ten: u64,
    pub word: u64,
    pub width: usize,
    pub unit: u64,
    pub left: u64,
}

// The number itself.
pub fn number_of(own: LineNumber) -> u64
    requires { Keeps (number_in own) own }
    ensures { result ≡ number_in own }
{
    own.ten - own.left
}

// Two digits as bytes.
#[tactic(auto, unfolding(event::specs::BigEndian::number_of))]
fn pair_of(n: u64) -> u64
    requires { n < 100 }
    ensures { (result ≡ number_of ((48 + n / 10) ∷ (48 + n % 10) ∷ [])) × (result < 65536) }
{
    12336 + n / 10 * 256 + n % 10
}

// A number for which no bytes are kept.
fn without_bytes(n: u64, left: u64) -> LineNumber
    requires { (left ≡ 10 - n % 10) × (n + 10 < 18446744073709551616) }
    ensures { Keeps n result }
{
    LineNumber {
        ten: n + left,
        word: 0,
        width: 0,
        unit: 0,
        left,
    }
}

// A number by its digits as bytes; `blank` is 1 in the byte of the blank.
#[tactic(auto, using(crate::proofs::Bytes::digits_fit, crate::proofs::Bytes::digits_kept))]
fn of_digits(n: u64, digits: u64, width: usize, blank: u64, left: u64) -> LineNumber
    requires { InDigits n digits width blank × (left ≡ 10 - n % 10) × (n + 10 < 18446744073709551616) }
    ensures { Keeps n result }
{
    LineNumber {
        ten: n + left,
        word: (digits * 256 + 32) * blank,
        width,
        unit: blank * 256,
        left,
    }
}

// A line's number without bytes; once its last digit is over, the next ones have theirs.
pub fn plain_number(n: u64) -> LineNumber
    requires { n + 10 < 18446744073709551616 }
    ensures { Keeps n result }
{
    without_bytes(n, 10 - n % 10)
}

// A line's number, with its bytes where it has two to five digits.
#[tactic(auto, using(crate::proofs::Bytes::two_digits, crate::proofs::Bytes::three_digits, crate::proofs::Bytes::four_digits, crate::proofs::Bytes::five_digits))]
fn line_number(n: u64) -> LineNumber
    requires { n + 10 < 18446744073709551616 }
    ensures { Keeps n result }
{
    let left = 10 - n % 10;
    if n < 10 {
        without_bytes(n, left)
    } else if n < 100 {
        of_digits(n, pair_of(n), 3, 0x10000000000, left)
    } else if n < 1000 {
        let digits = (48 + n / 100) * 65536 + pair_of(n % 100);
        of_digits(n, digits, 4, 0x100000000, left)
    } else if n < 10000 {
        let digits = pair_of(n / 100) * 65536 + pair_of(n % 100);
        of_digits(n, digits, 5, 0x1000000, left)
    } else if n < 100000 {
        let front = (48 + n / 10000) * 65536 + pair_of(n / 100 % 100);
        of_digits(n, front * 65536 + pair_of(n % 100), 6, 0x10000, left)
    } else {
        without_bytes(n, left)
    }
}

// The number of the next line.
#[tactic(auto, using(crate::proofs::Bytes::keeps_counted, crate::proofs::Bytes::counted_fits))]
pub fn next_number(own: LineNumber) -> LineNumber
    requires { Keeps (number_in own) own × (number_in own + 11 < 18446744073709551616) }
    ensures { Keeps (number_in own + 1) result }
{
    if own.left == 1 {
        line_number(own.ten)
    } else {
        LineNumber {
            word: own.word + own.unit,
            left: own.left - 1,
            ..own
        }
    }
}

// Stores the number and the blank, and up to five bytes after them, over which the rest of the line is stored; the index after the blank.
#[tactic(auto, using(crate::proofs::Lines::numbered_plain, crate::proofs::Lines::numbered_word, number_text::proofs::Decimal::few_digits))]
pub fn put_line_number(out: &mut [u8], at: usize, own: LineNumber) -> usize
    requires { Keeps (number_in own) own × (at + 21 ≤ length out.old) }
    ensures { Numbered (number_in own) out.old at out.new result }
{
    if own.width == 0 {
        put_number(out, at, number_of(own), BLANK)
    } else {
        own.word.put(out, at);
        at + own.width
    }
}
