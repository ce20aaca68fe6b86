// Prints words and numbers: the answer to a call, and a lane's phase.
use line::{Phase, Purpose};
use steps::Answer;
use view::Place;

pub fn text(words: &[u8]) {
    io::write_all(1, words);
}

// What comes before a number, and the number in decimal.
pub fn number<N: Into<u64>>(lead: &[u8], value: N) {
    io::write_all(1, lead);
    io::print_decimal(1, value.into());
}

// Two hexadecimal digits for each byte.
pub fn digits(bytes: &[u8]) {
    for byte in bytes {
        io::print_hex(1, u64::from(*byte), 2);
    }
}

fn print_place(lead: &[u8], place: Place) {
    number(lead, place.0);
}

fn print_wakes(lead: &[u8], wakes: Option<u8>) {
    text(lead);
    match wakes {
        Some(lane) => number(b" wakes ", lane),
        None => text(b" wakes none"),
    }
}

fn print_region(start: Place, count: u16, wakes: Option<u8>) {
    number(b"region ", start.0);
    number(b" ", count);
    print_wakes(b"", wakes);
}

fn print_record(content: u64) {
    text(b"record ");
    io::print_hex(1, content, 16);
}

// The answer in document 01's words.
pub fn print_answer(answer: Answer) {
    match answer {
        Answer::Open { lanes, capacity } => {
            number(b"open ", lanes);
            number(b" ", capacity);
        }
        Answer::Holds { pointer } => print_place(b"holds ", pointer),
        Answer::Waits => text(b"waits"),
        Answer::Region {
            start,
            count,
            wakes,
        } => print_region(start, count, wakes),
        Answer::Wrote { position } => number(b"wrote ", position.0),
        Answer::Record { content } => print_record(content),
        Answer::None => text(b"none"),
        Answer::Freed { wakes } => print_wakes(b"freed", wakes),
        Answer::Gathered => text(b"gathered"),
        Answer::Ordered { before, total } => {
            number(b"ordered ", before.0);
            number(b" ", total);
        }
        Answer::View => text(b"view"),
        Answer::Seek { pointer } => print_place(b"seek ", pointer),
        Answer::Refused { number: reason } => number(b"refused ", reason),
    }
}

fn print_purpose(lead: &[u8], purpose: Purpose) {
    text(lead);
    match purpose {
        Purpose::SharedWrite => text(b" for shared write"),
        Purpose::SharedRead => text(b" for shared read"),
        Purpose::WholeBook => text(b" for the whole book"),
    }
}

fn print_turn(lead: &[u8], purpose: Purpose, value: Place) {
    print_purpose(lead, purpose);
    print_place(b" with ", value);
}

fn print_busy(lead: &[u8], left: u16, next: Place) {
    number(lead, left);
    print_place(b" from ", next);
}

pub fn print_phase(phase: Phase) {
    match phase {
        Phase::Idle => text(b" idle"),
        Phase::Waiting(purpose) => print_purpose(b" waiting", purpose),
        Phase::Woken(purpose, value) => print_turn(b" woken", purpose, value),
        Phase::Holding(purpose, value) => print_turn(b" holding", purpose, value),
        Phase::BusyWriting { left, next } => print_busy(b" writing ", left, next),
        Phase::BusyReading { left, next } => print_busy(b" reading ", left, next),
        Phase::Gathered(count) => number(b" gathered with ", count),
    }
}
