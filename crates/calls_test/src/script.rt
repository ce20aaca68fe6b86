// The script: each line of text makes the line anew, changes it, or is a case that starts from it.
use crate::entries::case;
use crate::hex::{find, read_bytes};
use crate::lines::{new_line, set_block, set_lane, set_tile};
use line::Line;

// A case, by the word that it starts with: call, huge (with the large book) or raw (as bytes).
fn run_case(word: u8, label: &[u8], line: Line, kind: u8, body: &[u8]) {
    if word == b'h' {
        let mut large = [0u8; 65600];
        case(label, false, line, &mut large, kind, body);
        return;
    }
    let mut book = [0u8; 80];
    case(label, word == b'r', line, &mut book, kind, body);
}

// A line of text that is a case: word, kind and body (the first n bytes), a colon and its label.
fn read_case(text: &[u8], word: u8, line: Line, bytes: &[u8], n: usize) {
    let colon = find(text, b':', 0);
    if text.len() - colon < 2 || n < 1 || bytes.len() < n {
        return;
    }
    run_case(word, &text[colon + 2..], line, bytes[0], &bytes[1..n]);
}

// The line after a line of text, by the word that it starts with; other words are remarks.
fn step(line: Line, text: &[u8], bytes: &[u8; 64], n: usize) -> Line {
    let Some(&word) = text.first() else {
        return line;
    };
    match word {
        b'n' => new_line(bytes),
        b'l' => set_lane(line, bytes),
        b'v' => set_tile(line, bytes),
        b'b' => set_block(line, bytes),
        b'c' | b'h' | b'r' => {
            read_case(text, word, line, bytes, n);
            line
        }
        _ => line,
    }
}

// A line of text: the bytes after its first word, and what they do.
fn run_text(line: Line, text: &[u8]) -> Line {
    let mut bytes = [0u8; 64];
    let n = read_bytes(text, find(text, b' ', 0), &mut bytes);
    step(line, text, &bytes, n)
}

pub fn run(script: &[u8]) {
    let mut line = Line::unopened();
    for text in script.split(|byte| *byte == b'\n') {
        line = run_text(line, text);
    }
}
