// Numbers in decimal and in hexadecimal, stored as ASCII digits in a lent buffer.
// `as u8` narrows what is proved to fit: `u8::try_from` would test it again for each digit.
#![tactic(auto)]

ghost use Rattle.std.specs.Prelude.{◌≡◌, [], ◌∷◌, ◌+◌, ◌/◌, ◌%◌, ◌≤◌, ◌<◌, length};
ghost use Rattle.printout.specs.Print.{decimal, hex_digit, hex_in};
ghost use Rattle.number_text.specs.Stored.{Stored};

// The two digits of a number below 100 from an index on; the index after them.
// Both are made as one word, the first in its low byte, so that the compiler stores them at once.
pub fn put_pair(out: &mut [u8], at: usize, n: u64) -> usize
    requires { (n < 100) × (at + 2 ≤ length out.old) }
    ensures { Stored ((48 + n / 10) ∷ (48 + n % 10) ∷ []) out.old at out.new result }
{
    let word = 48 + n / 10 + (48 + n % 10) * 256;
    out[at] = (word % 256) as u8;
    out[at + 1] = (word / 256) as u8;
    at + 2
}

// A number of any length, a digit at a time: the digits before the last by a call of itself.
fn put_long(out: &mut [u8], at: usize, n: u64) -> usize
    requires { at + length (decimal n) ≤ length out.old }
    ensures { Stored (decimal n) out.old at out.new result }
{
    if n < 10 {
        out[at] = b'0' + n as u8;
        at + 1
    } else {
        let last = put_long(out, at, n / 10);
        out[last] = b'0' + (n % 10) as u8;
        last + 1
    }
}

// A number in decimal, without leading zeros, from an index on; the index after it.
// A number of up to five digits, as most are, is stored two digits at a time.
pub fn put_decimal(out: &mut [u8], at: usize, n: u64) -> usize
    requires { at + length (decimal n) ≤ length out.old }
    ensures { Stored (decimal n) out.old at out.new result }
{
    if n < 10 {
        out[at] = b'0' + n as u8;
        at + 1
    } else if n < 100 {
        put_pair(out, at, n)
    } else if n < 1000 {
        out[at] = b'0' + (n / 100) as u8;
        put_pair(out, at + 1, n % 100)
    } else if n < 10000 {
        let last = put_pair(out, at, n / 100);
        put_pair(out, last, n % 100)
    } else if n < 100000 {
        out[at] = b'0' + (n / 10000) as u8;
        let last = put_pair(out, at + 1, n / 100 % 100);
        put_pair(out, last, n % 100)
    } else {
        put_long(out, at, n)
    }
}

// A hexadecimal digit, in lowercase: a letter stands 39 past where the digits would go on.
// By arithmetic and not by a match, so that the compiler makes sixteen of them in vector operations.
pub fn hex_digit(d: u64) -> u8
    requires { d < 16 }
    ensures { result ≡ hex_digit d }
{
    (48 + d + (d + 6) / 16 * 39) as u8
}

// A number in 16 hexadecimal digits from an index on; the index after it.
// Sixteen stores and not a loop, so that the compiler makes the digits in vector operations.
pub fn put_hex(out: &mut [u8], at: usize, n: u64) -> usize
    requires { at + 16 ≤ length out.old }
    ensures { Stored (hex_in 16 n) out.old at out.new result }
{
    out[at] = hex_digit(n / 0x1000000000000000 % 16);
    out[at + 1] = hex_digit(n / 0x100000000000000 % 16);
    out[at + 2] = hex_digit(n / 0x10000000000000 % 16);
    out[at + 3] = hex_digit(n / 0x1000000000000 % 16);
    out[at + 4] = hex_digit(n / 0x100000000000 % 16);
    out[at + 5] = hex_digit(n / 0x10000000000 % 16);
    out[at + 6] = hex_digit(n / 0x1000000000 % 16);
    out[at + 7] = hex_digit(n / 0x100000000 % 16);
    out[at + 8] = hex_digit(n / 0x10000000 % 16);
    out[at + 9] = hex_digit(n / 0x1000000 % 16);
    out[at + 10] = hex_digit(n / 0x100000 % 16);
    out[at + 11] = hex_digit(n / 0x10000 % 16);
    out[at + 12] = hex_digit(n / 0x1000 % 16);
    out[at + 13] = hex_digit(n / 0x100 % 16);
    out[at + 14] = hex_digit(n / 0x10 % 16);
    out[at + 15] = hex_digit(n % 16);
    at + 16
}
