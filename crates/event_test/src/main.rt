// Writes events of each kind, prints their bytes, reads them back and prints the fields; stdout has document 01's answers.
#![tactic(auto)]

use event::{Cursor, Event, Reading, Writing};
use limits::MOST_BLOCKS;
use view::{Block, Place};

// The blocks of a view.
type Blocks = [Block; MOST_BLOCKS];

// What comes before a number, the number in decimal and a line end.
fn print_after(lead: &[u8], value: u64) {
    io::write_all(1, lead);
    io::print_decimal(1, value);
    io::write_all(1, b"\n");
}

// A label, a blank, the number in decimal and a line end.
fn print<N: Into<u64>>(name: &[u8], value: N) {
    io::write_all(1, name);
    print_after(b" ", value.into());
}

// A label, a blank, the number in hexadecimal and a line end.
fn print_hex(name: &[u8], value: u64, width: usize) {
    io::write_all(1, name);
    io::write_all(1, b" ");
    io::print_hex(1, value, width);
    io::write_all(1, b"\n");
}

// Two hexadecimal digits for each byte.
fn print_digits(bytes: &[u8]) {
    for byte in bytes {
        io::print_hex(1, u64::from(*byte), 2);
    }
}

// A label, a blank, the bytes in hexadecimal and a line end.
fn print_bytes(name: &[u8], bytes: &[u8]) {
    io::write_all(1, name);
    io::write_all(1, b" ");
    print_digits(bytes);
    io::write_all(1, b"\n");
}

// A sign, and the size whatever it is: the least i32 has no negation of its type.
fn print_offset(offset: i32) {
    let size = u64::from(offset.unsigned_abs());
    if offset < 0 {
        print_after(b"offset -", size);
    } else {
        print_after(b"offset ", size);
    }
}

// The fields of an event: its kind and the first field, then the others.
fn print_lane(kind: u64, lane: u8) {
    print_hex(b"kind", kind, 2);
    print(b"lane", lane);
}

fn print_lane_count(kind: u64, lane: u8, count: u16) {
    print_lane(kind, lane);
    print(b"count", count);
}

fn print_lane_place(kind: u64, lane: u8, place: Place) {
    print_lane(kind, lane);
    print(b"place", place.0);
}

fn print_open(lanes: u8, capacity: u32) {
    print_hex(b"kind", 0x01, 2);
    print(b"lanes", lanes);
    print(b"capacity", capacity);
}

fn print_want(lane: u8, purpose: u8) {
    print_lane(0x02, lane);
    print(b"purpose", purpose);
}

fn print_write(lane: u8, content: u64) {
    print_lane(0x05, lane);
    print_hex(b"record", content, 16);
}

fn print_put(lane: u8, place: Place, content: u64) {
    print_lane_place(0x07, lane, place);
    print_hex(b"record", content, 16);
}

fn print_seek(whence: u8, offset: i32) {
    print_hex(b"kind", 0x0C, 2);
    print(b"whence", whence);
    print_offset(offset);
}

fn print_block(b: Block) {
    print(b"start", b.start);
    print(b"length", b.length);
}

fn print_view(displacement: u32, extent: u16, used: u8, blocks: Blocks) {
    print_hex(b"kind", 0x0B, 2);
    print(b"displacement", displacement);
    print(b"extent", extent);
    print(b"blocks", used);
    for block in blocks {
        print_block(block);
    }
}

fn print_event(event: Event) {
    match event {
        Event::Open { lanes, capacity } => print_open(lanes, capacity),
        Event::Want { lane, purpose } => print_want(lane, purpose),
        Event::Receive { lane } => print_lane(0x03, lane),
        Event::Take { lane, count } => print_lane_count(0x04, lane, count),
        Event::Write { lane, content } => print_write(lane, content),
        Event::Read { lane } => print_lane(0x06, lane),
        Event::Put {
            lane,
            place,
            content,
        } => print_put(lane, place, content),
        Event::Look { lane, place } => print_lane_place(0x08, lane, place),
        Event::Free { lane } => print_lane(0x09, lane),
        Event::Enter { lane, count } => print_lane_count(0x0A, lane, count),
        Event::View {
            displacement,
            extent,
            used,
            blocks,
        } => print_view(displacement, extent, used, blocks),
        Event::Seek { whence, offset } => print_seek(whence, offset),
        Event::Unlisted => {
            io::write_all(1, b"unlisted\n");
        }
    }
}

// What reading found: an event and where the next one starts, the end, or a refusal.
fn print_reading(reading: Reading) {
    match reading {
        Ok(Some((event, next))) => {
            print_event(event);
            print(b"next", next.at as u64);
        }
        Ok(None) => {
            io::write_all(1, b"end\n");
        }
        Err(refusal) => print(b"refused", refusal.number()),
    }
}

fn print_writing(writing: Writing) {
    match writing {
        Ok(length) => print(b"length", length as u64),
        Err(refusal) => print(b"refused", refusal.number()),
    }
}

// The bytes written and those past them.
fn print_written(buffer: &[u8], n: usize) {
    if buffer.len() < n {
        return;
    }
    print_bytes(b"bytes", &buffer[0..n]);
    print_bytes(b"past", &buffer[n..]);
}

// Reads all but the last of an event's n bytes.
fn read_cut(buffer: &[u8], n: usize) {
    if n < 1 {
        return;
    }
    let end = n - 1;
    if buffer.len() < end {
        return;
    }
    io::write_all(1, b"cut ");
    print_reading(decode::read_event(&buffer[0..end], Cursor { at: 0 }));
}

// Writes an event of n bytes into a buffer that has one byte less.
fn write_short(event: Event, buffer: &mut [u8], n: usize) {
    if n < 1 {
        return;
    }
    let end = n - 1;
    if buffer.len() < end {
        return;
    }
    io::write_all(1, b"short ");
    print_writing(encode::write_event(event, &mut buffer[0..end]));
    print_bytes(b"left", buffer);
}

fn write_and_read(event: Event, buffer: &mut [u8], spare: &mut [u8]) {
    let Ok(n) = encode::write_event(event, buffer) else {
        return;
    };
    print_written(buffer, n);
    print_reading(decode::read_event(buffer, Cursor { at: 0 }));
    read_cut(buffer, n);
    write_short(event, spare, n);
}

fn test(event: Event) {
    let mut buffer = [0xEEu8; 64];
    let mut spare = [0xEEu8; 64];
    write_and_read(event, &mut buffer, &mut spare);
}

fn block(start: u16, length: u16) -> Block {
    Block { start, length }
}

// Eight blocks that differ in each byte.
fn rising() -> Blocks {
    [
        block(0x1011, 0x1213),
        block(0x1415, 0x1617),
        block(0x1819, 0x1A1B),
        block(0x1C1D, 0x1E1F),
        block(0x2021, 0x2223),
        block(0x2425, 0x2627),
        block(0x2829, 0x2A2B),
        block(0x2C2D, 0x2E2F),
    ]
}

// An event of each kind from the values of its fields.
fn test_each(byte: u8, count: u16, number: u32, content: u64, offset: i32, blocks: Blocks) {
    let place = Place(number);
    test(Event::Open {
        lanes: byte,
        capacity: number,
    });
    test(Event::Want {
        lane: byte,
        purpose: byte,
    });
    test(Event::Receive { lane: byte });
    test(Event::Take { lane: byte, count });
    test(Event::Write {
        lane: byte,
        content,
    });
    test(Event::Read { lane: byte });
    test(Event::Put {
        lane: byte,
        place,
        content,
    });
    test(Event::Look { lane: byte, place });
    test(Event::Free { lane: byte });
    test(Event::Enter { lane: byte, count });
    test(Event::View {
        displacement: number,
        extent: count,
        used: byte,
        blocks,
    });
    test(Event::Seek {
        whence: byte,
        offset,
    });
}

// Reads a sheet of two events from a byte on.
fn read_two(at: usize) {
    let sheet = [0x03, 0x05, 0x09, 0x3F];
    print(b"at", at as u64);
    print_reading(decode::read_event(&sheet, Cursor { at }));
}

// Reads a sheet of one byte, then that byte with 40 more.
fn read_kind(kind: u8) {
    let mut sheet = [0u8; 41];
    sheet[0] = kind;
    print_hex(b"alone", u64::from(kind), 2);
    print_reading(decode::read_event(&[kind], Cursor { at: 0 }));
    print_hex(b"followed", u64::from(kind), 2);
    print_reading(decode::read_event(&sheet, Cursor { at: 0 }));
}

// Writes the unlisted case into a buffer of 64 bytes and into an empty one.
fn write_unlisted() {
    let mut buffer = [0xEEu8; 64];
    let mut empty = [0u8; 0];
    io::write_all(1, b"unlisted ");
    print_writing(encode::write_event(Event::Unlisted, &mut buffer));
    print_bytes(b"left", &buffer);
    io::write_all(1, b"unlisted ");
    print_writing(encode::write_event(Event::Unlisted, &mut empty));
}

fn test_refusals() {
    write_unlisted();
    for kind in [0x00, 0x0D, 0xFF] {
        read_kind(kind);
    }
    for at in [0, 2, 3, 4, 5] {
        read_two(at);
    }
    print_reading(decode::read_event(&[], Cursor { at: 0 }));
}

// Two fields of one width that differ, and the offsets that are left.
fn test_more() {
    test(Event::Want {
        lane: 63,
        purpose: 2,
    });
    test(Event::Seek {
        whence: 2,
        offset: 2147483647,
    });
    test(Event::Seek {
        whence: 1,
        offset: -0x01020304,
    });
}

// The least value of each field, the largest, and values that differ in each byte.
fn main() {
    test_each(0, 0, 0, 0, 0, [Block::UNUSED; MOST_BLOCKS]);
    test_each(
        255,
        65535,
        4294967295,
        18446744073709551615,
        -1,
        [block(65535, 65535); MOST_BLOCKS],
    );
    test_each(
        0x01,
        0x0203,
        0x04050607,
        0x08090A0B0C0D0E0F,
        -2147483648,
        rising(),
    );
    test_more();
    test_refusals();
}
