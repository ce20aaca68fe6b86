// The notation of the papers, read: pairs of hexadecimal digits, free characters between them, and comments from # to the line's end.
#![tactic(auto)]

ghost use Rattle.std.specs.Prelude.{◌+◌, ◌≤◌, ◌<◌, ◌≡◌, length, IfSome};
ghost use Rattle.number_text.specs.Stored.{Stored};
ghost use Rattle.notation.specs.Notation.{after, begins_notation, between_step, character_step, comment_step, digit_of, end_fault, error_of, fault_of, is_free, is_line_end, left_of, left_past, looks_like_notation, made_of, missing_at, most_notation, notation_bytes, parsed_of, parsed_past, past_mark, second_step, spot_of, spot_past, settled, stored_of, stored_to, Fits, StandsIn};

// The longest text.
pub const MOST_NOTATION: usize = 1048576;

// Where a text stands after a character: between bytes, in a comment, after the first digit of a byte or at the end of a byte, each with its value.
#[derive(Clone, Copy, Debug, PartialEq, Eq)]
pub enum State {
    Between,
    Comment,
    First(u8),
    Byte(u8),
}

// What is wrong in a text: no digit, or no second digit after a byte's first, by the index of what stands there instead.
#[derive(Clone, Copy, Debug, PartialEq, Eq)]
pub enum Fault {
    NoDigit(usize),
    NoSecond(usize),
}

// A line and a column of a text, both from 1.
#[derive(Clone, Copy, Debug, PartialEq, Eq)]
pub struct Spot {
    pub line: u64,
    pub column: u64,
}

// Why a text is refused: where a digit or a second digit is missing, and what was found there, which may be the end;
// a text of more than MOST_NOTATION bytes; or a buffer too short for the bytes.
#[derive(Clone, Copy, Debug, PartialEq, Eq)]
pub enum ParseError {
    NoDigit(Spot, u8),
    NoSecond(Spot, Option<u8>),
    TooLong,
    TooShort,
}

// The value of a hexadecimal digit. It is inlined, as all that a text's loops go by: with calls a text of digits takes 1.29 times the instructions.
#[inline(always)]
fn digit(c: u8) -> Option<u8>
    ensures value { result ≡ digit_of c }
    ensures small { IfSome result (λ d. d < 16) }
{
    match c {
        b'0'..=b'9' => Some(c - b'0'),
        b'A'..=b'F' => Some(c - b'A' + 10),
        b'a'..=b'f' => Some(c - b'a' + 10),
        _ => None,
    }
}

// A line feed or a carriage return.
fn is_line_end(c: u8) -> bool
    ensures { result ≡ is_line_end c }
{
    c == b'\n' || c == b'\r'
}

// A blank, a tab, a comma or a line end.
fn is_free(c: u8) -> bool
    ensures { result ≡ is_free c }
{
    c == b' ' || c == b'\t' || c == b',' || is_line_end(c)
}

// A text past the byte order mark with which it may start.
fn past_mark(text: &[u8]) -> &[u8]
    ensures { result.now ≡ past_mark text.now }
{
    match text {
        [0xEF, 0xBB, 0xBF, rest @ ..] => rest,
        _ => text,
    }
}

// A digit, or the # of a comment.
fn begins_notation(c: u8) -> bool
    ensures { result ≡ begins_notation c }
{
    c == b'#' || digit(c).is_some()
}

// Whether bytes look like notation and not like a sheet: past a mark, the first that is not free is a digit or a #.
#[tactic(auto, using(crate::proofs::Laws::opens_end, crate::proofs::Laws::opens_here, crate::proofs::Laws::opens_more))]
pub fn looks_like_notation(sheet: &[u8]) -> bool
    ensures { result ≡ looks_like_notation sheet.now }
{
    for &c in past_mark(sheet) {
        if !is_free(c) {
            return begins_notation(c);
        }
    }
    false
}

// The state after a character between bytes; none where it may not stand there.
#[inline(always)]
fn step_between(c: u8) -> Option<State>
    ensures step { result ≡ between_step c }
    ensures fits { IfSome result Fits }
{
    if c == b'#' {
        return Some(State::Comment);
    }
    if is_free(c) {
        return Some(State::Between);
    }
    digit(c).map(State::First)
}

// The state after a character that follows the first digit of a byte: only the second may stand there.
#[inline(always)]
fn step_second(high: u8, c: u8) -> Option<State>
    requires { high < 16 }
    ensures step { result ≡ second_step high c }
    ensures fits { IfSome result Fits }
{
    let low = digit(c)?;
    Some(State::Byte(high * 16 + low))
}

// The state after a character in a comment, which a line end ends.
fn step_comment(c: u8) -> State
    ensures step { result ≡ comment_step c }
    ensures fits { Fits result }
{
    if is_line_end(c) {
        State::Between
    } else {
        State::Comment
    }
}

impl State {
    // The state after a character; none where it may not stand there.
    #[inline(always)]
    fn step(self, c: u8) -> Option<State>
        requires { Fits self }
        ensures step { result ≡ character_step self c }
        ensures fits { IfSome result Fits }
    {
        match self {
            State::Comment => Some(step_comment(c)),
            State::First(high) => step_second(high, c),
            State::Between | State::Byte(_) => step_between(c),
        }
    }

    // The state after a character; after one that may not stand there it is between bytes.
    #[inline(always)]
    fn after(self, c: u8) -> State
        requires { Fits self }
        ensures after { result ≡ after self c }
        ensures fits { Fits result }
    {
        self.step(c).unwrap_or(State::Between)
    }

    // The state from which the text goes on: past the end of a byte that is as between bytes. With one state less to tell apart a loop is faster.
    #[inline(always)]
    fn settled(self) -> State
        requires { Fits self }
        ensures settled { result ≡ settled self }
        ensures fits { Fits result }
    {
        match self {
            State::Byte(_) => State::Between,
            _ => self,
        }
    }

    // What is missing at the index of a character that may not stand there.
    fn missing_at(self, at: usize) -> Fault
        ensures { result ≡ missing_at self at }
    {
        match self {
            State::First(_) => Fault::NoSecond(at),
            _ => Fault::NoDigit(at),
        }
    }

    // What is missing where a text ends.
    fn missing_at_end(self, at: usize) -> Option<Fault>
        ensures { result ≡ end_fault self at }
    {
        match self {
            State::First(_) => Some(Fault::NoSecond(at)),
            _ => None,
        }
    }
}

// The first fault of a text.
#[tactic(auto, using(crate::proofs::Laws::fault_end, crate::proofs::Laws::fault_here, crate::proofs::Laws::fault_next))]
fn find_fault(text: &[u8]) -> Option<Fault>
    ensures { result ≡ fault_of text.now }
{
    let mut state = State::Between;
    for (i, &c) in text.iter().enumerate() {
        let Some(next) = state.step(c) else {
            return Some(state.missing_at(i));
        };
        state = next.settled();
    }
    state.missing_at_end(text.len())
}

// A count, and one more where a byte has ended.
fn count_after(count: usize, state: State) -> usize
    requires { count ≤ most_notation }
    ensures { (result ≡ count + length (made_of state)) × (result ≤ count + 1) }
{
    match state {
        State::Byte(_) => count + 1,
        _ => count,
    }
}

// The number of bytes of a text.
#[tactic(auto, using(crate::proofs::Laws::bytes_end, crate::proofs::Laws::length_more))]
fn count_bytes(text: &[u8]) -> usize
    requires { length text.now ≤ most_notation }
    ensures { result ≡ length (notation_bytes text.now) }
{
    let mut state = State::Between;
    let mut count = 0;
    for &c in text {
        state = state.after(c);
        count = count_after(count, state);
    }
    count
}

// The byte that has ended, if one has, at an index; the index after it.
fn put_made(out: &mut [u8], at: usize, state: State) -> usize
    requires { at + length (made_of state) ≤ length out.old }
    ensures { Stored (made_of state) out.old at out.new result }
{
    match state {
        State::Byte(value) => {
            out[at] = value;
            at + 1
        }
        _ => at,
    }
}

// The bytes of a text, from the buffer's start on; the index after them.
#[tactic(auto, using(crate::proofs::Laws::bytes_end, crate::proofs::Laws::bytes_next, crate::proofs::Laws::length_next))]
fn put_bytes(text: &[u8], out: &mut [u8]) -> usize
    requires { length (notation_bytes text.now) ≤ length out.old }
    ensures { Stored (notation_bytes text.now) out.old 0 out.new result }
{
    let mut state = State::Between;
    let mut end = 0;
    for &c in text {
        let next = state.after(c);
        end = put_made(out, end, next);
        state = next.settled();
    }
    end
}

impl Spot {
    // The spot after a character here, by the character before it. The LF after a CR is part of one line end.
    fn past(self, previous: u8, c: u8) -> Spot
        requires { (self.line ≤ most_notation) × (self.column ≤ most_notation) }
        ensures { (result ≡ spot_past self previous c) × (result.line ≤ self.line + 1) × (result.column ≤ self.column + 1) }
    {
        match c {
            b'\n' if previous == b'\r' => self,
            b'\n' | b'\r' => Spot {
                line: self.line + 1,
                column: 1,
            },
            _ => Spot {
                line: self.line,
                column: self.column + 1,
            },
        }
    }
}

// The line and the column right after a text.
#[tactic(auto, using(crate::proofs::Laws::spot_end, crate::proofs::Laws::spot_more))]
fn spot_after(text: &[u8]) -> Spot
    requires { length text.now ≤ most_notation }
    ensures { result ≡ spot_of text.now }
{
    let mut spot = Spot { line: 1, column: 1 };
    let mut previous = 0;
    for &c in text {
        spot = spot.past(previous, c);
        previous = c;
    }
    spot
}

// A fault of a text, by line and column and with what was found.
fn error_at(text: &[u8], fault: Fault) -> ParseError
    requires short { length text.now ≤ most_notation }
    requires stands { StandsIn (length text.now) fault }
    ensures { result ≡ error_of text.now fault }
{
    match fault {
        Fault::NoDigit(at) => ParseError::NoDigit(spot_after(&text[..at]), text[at]),
        Fault::NoSecond(at) => {
            ParseError::NoSecond(spot_after(&text[..at]), text.get(at).copied())
        }
    }
}

// The bytes of a text that has no fault. A byte has two characters at least, so that they are counted only where the buffer may be too short.
#[tactic(auto, using(crate::proofs::Halves::at_most_half))]
fn store(text: &[u8], out: &mut [u8]) -> Result<usize, ParseError>
    requires { length text.now ≤ most_notation }
    ensures { (result ≡ stored_of text.now (length out.old)) × (out.new ≡ stored_to text.now out.old) }
{
    if out.len() < text.len() / 2 && out.len() < count_bytes(text) {
        return Err(ParseError::TooShort);
    }
    Ok(put_bytes(text, out))
}

// The parse of a text past its mark.
#[tactic(auto, using(crate::proofs::Exits::fault_stands))]
fn parse_past(text: &[u8], out: &mut [u8]) -> Result<usize, ParseError>
    requires { length text.now ≤ most_notation }
    ensures { (result ≡ parsed_past text.now (length out.old)) × (out.new ≡ left_past text.now out.old) }
{
    match find_fault(text) {
        Some(fault) => Err(error_at(text, fault)),
        None => store(text, out),
    }
}

// The bytes of a text, stored from the buffer's start on, and how many they are; or what is wrong, and the buffer as it was.
// A byte order mark at the start is skipped.
pub fn parse(text: &[u8], out: &mut [u8]) -> Result<usize, ParseError>
    ensures { (result ≡ parsed_of text.now (length out.old)) × (out.new ≡ left_of text.now out.old) }
{
    if MOST_NOTATION < text.len() {
        return Err(ParseError::TooLong);
    }
    parse_past(past_mark(text), out)
}
