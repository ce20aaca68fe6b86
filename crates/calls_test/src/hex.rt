// Hexadecimal bytes and marks in a line of text.
ghost use Rattle.std.specs.Prelude.{◌≤◌, ◌<◌, length};
ghost use Rattle.std.specs.Option.{IfSome};

// The index of the first such byte from an index on, or the length.
pub fn find(text: &[u8], byte: u8, from: usize) -> usize
    requires { from ≤ length text.now }
    ensures low { from ≤ result }
    ensures high { result ≤ length text.now }
{
    for i in from..text.len() {
        if text[i] == byte {
            return i;
        }
    }
    text.len()
}

// The value of a hexadecimal digit in upper case.
fn digit(b: u8) -> Option<u8>
    ensures { IfSome result (λ value. value < 16) }
{
    match b {
        b'0'..=b'9' => Some(b - b'0'),
        b'A'..=b'F' => Some(b - b'A' + 10),
        _ => None,
    }
}

// The byte of two digits at an index, past a blank if one stands there, and the index past it.
fn pair_at(text: &[u8], at: usize) -> Option<(u8, usize)> {
    let start = if text.get(at) == Some(&b' ') {
        at + 1
    } else {
        at
    };
    let high = digit(*text.get(start)?)?;
    let low = digit(*text.get(start + 1)?)?;
    Some((high * 16 + low, start + 2))
}

// Reads bytes from an index on, and answers how many there are.
pub fn read_bytes(text: &[u8], from: usize, out: &mut [u8; 64]) -> usize {
    let mut at = from;
    for (n, byte) in out.iter_mut().enumerate() {
        let Some((value, next)) = pair_at(text, at) else {
            return n;
        };
        *byte = value;
        at = next;
    }
    64
}
