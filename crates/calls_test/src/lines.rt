// The lines that the cases start from, made of bytes; numbers are big-endian.
use decode_fields::Field;
use limits::{MOST_BLOCKS, MOST_LANES};
use line::{Line, Phase, Purpose};
use view::{Block, Place, View};

// The field at an index, or 0 where the bytes end before it.
fn field<F: Field + Copy + From<u8>>(bytes: &[u8], at: usize) -> F {
    match F::read(bytes, at) {
        Some((value, _)) => value,
        None => F::from(0),
    }
}

// lanes 1, capacity 4, size 4, pointer 4: idle lanes and the plain view.
pub fn new_line(bytes: &[u8]) -> Line {
    Line {
        lanes: field(bytes, 0),
        capacity: field(bytes, 1),
        size: field(bytes, 5),
        pointer: Place(field(bytes, 9)),
        ..Line::unopened()
    }
}

fn purpose_of(number: u8) -> Purpose {
    match number {
        0 => Purpose::SharedWrite,
        1 => Purpose::SharedRead,
        _ => Purpose::WholeBook,
    }
}

// 0 idle, 1 waiting, 2 woken, 3 holding, 4 writing, 5 reading, 6 gathered.
fn phase_of(number: u8, purpose: Purpose, place: Place, count: u16) -> Phase {
    match number {
        0 => Phase::Idle,
        1 => Phase::Waiting(purpose),
        2 => Phase::Woken(purpose, place),
        3 => Phase::Holding(purpose, place),
        4 => Phase::BusyWriting {
            left: count,
            next: place,
        },
        5 => Phase::BusyReading {
            left: count,
            next: place,
        },
        _ => Phase::Gathered(count),
    }
}

// lane 1, flag 1, phase 1, purpose 1, place 4, count 2.
pub fn set_lane(line: Line, bytes: &[u8]) -> Line {
    let i = usize::from(field::<u8>(bytes, 0));
    let purpose = purpose_of(field(bytes, 3));
    let place = Place(field(bytes, 4));
    let phase = phase_of(field(bytes, 2), purpose, place, field(bytes, 8));
    if MOST_LANES <= i {
        return line;
    }
    let mut next = line;
    next.lane[i].phase = phase;
    next.flag[i] = field(bytes, 1);
    next
}

// displacement 4, extent 2, blocks 1.
pub fn set_tile(line: Line, bytes: &[u8]) -> Line {
    let view = View {
        displacement: field(bytes, 0),
        extent: field(bytes, 4),
        used: field(bytes, 6),
        ..line.view
    };
    Line { view, ..line }
}

// block 1, start 2, length 2.
pub fn set_block(line: Line, bytes: &[u8]) -> Line {
    let i = usize::from(field::<u8>(bytes, 0));
    if MOST_BLOCKS <= i {
        return line;
    }
    let mut next = line;
    next.view.block[i] = Block {
        start: field(bytes, 1),
        length: field(bytes, 3),
    };
    next
}
