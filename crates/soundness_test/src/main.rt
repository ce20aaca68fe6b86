// Lines that break one rule of a sound line each, and sound lines at the edges, tested by `is_sound`.
#![tactic(auto)]

ghost use Rattle.std.specs.Prelude.{◌<◌};
ghost use Rattle.limits.specs.Limits.{most_lanes};

use line::{Lane, Line, Phase, Purpose};
use std::io;
use view::{Block, Place, View};

// Says whether the line is sound with a buffer of this length.
fn say(rt: &impl Print, what: &str, line: Line, buffer: usize) -> io::Result<()> {
    if soundness::is_sound(line, buffer) {
        println!(rt; "{what}: sound")
    } else {
        println!(rt; "{what}: not sound")
    }
}

// A line with these numbers, the plain view and idle lanes.
fn numbers(lanes: u8, capacity: u32, size: u32, pointer: u32) -> Line {
    Line {
        lanes,
        capacity,
        size,
        pointer: Place(pointer),
        ..Line::unopened()
    }
}

fn say_numbers(
    rt: &impl Print,
    what: &str,
    lanes: u8,
    capacity: u32,
    size: u32,
    pointer: u32,
    buffer: usize,
) -> io::Result<()> {
    say(rt, what, numbers(lanes, capacity, size, pointer), buffer)
}

// Three idle lanes, a capacity of 64 bytes and the pointer at 3.
fn idle() -> Line {
    numbers(3, 64, 24, 3)
}

fn with(line: Line, i: usize, phase: Phase, flag: u8) -> Line
    requires { i < most_lanes }
{
    let mut next = line;
    next.lane[i] = Lane { phase };
    next.flag[i] = flag;
    next
}

fn say_lane(
    rt: &impl Print,
    what: &str,
    line: Line,
    i: usize,
    phase: Phase,
    flag: u8,
) -> io::Result<()>
    requires { i < most_lanes }
{
    say(rt, what, with(line, i, phase, flag), 64)
}

fn holding(value: u32) -> Phase {
    Phase::Holding(Purpose::SharedWrite, Place(value))
}

fn woken(value: u32) -> Phase {
    Phase::Woken(Purpose::WholeBook, Place(value))
}

fn waiting() -> Phase {
    Phase::Waiting(Purpose::SharedRead)
}

fn writing(next: u32, left: u16) -> Phase {
    Phase::BusyWriting {
        left,
        next: Place(next),
    }
}

fn reading(next: u32, left: u16) -> Phase {
    Phase::BusyReading {
        left,
        next: Place(next),
    }
}

// Lane 0 holds.
fn held() -> Line {
    with(idle(), 0, holding(3), 1)
}

// "N, capacity, size (at most the capacity), pointer and view are in range and the buffer holds the capacity".
fn test_numbers(rt: &impl Print) -> io::Result<()> {
    let line = idle();
    say(rt, "idle", line, 64)?;
    say(rt, "buffer one short", line, 63)?;
    say_numbers(
        rt,
        "N = 128 and the greatest numbers",
        128,
        65536,
        65536,
        65536,
        65536,
    )?;
    say_numbers(rt, "N = 65", 65, 64, 24, 3, 64)?;
    say_numbers(rt, "N = 129", 129, 64, 24, 3, 64)?;
    say_numbers(rt, "N = 255", 255, 64, 24, 3, 64)?;
    say_numbers(rt, "capacity 8", 1, 8, 8, 0, 8)?;
    say_numbers(rt, "capacity 7", 1, 7, 0, 0, 64)
}

fn test_more_numbers(rt: &impl Print) -> io::Result<()> {
    say_numbers(rt, "capacity 65537", 1, 65537, 0, 0, 65537)?;
    say_numbers(rt, "capacity 4294967295", 1, 4294967295, 0, 0, 4294967295)?;
    say_numbers(rt, "size past the capacity", 1, 64, 65, 0, 64)?;
    say_numbers(rt, "pointer 65537", 1, 64, 0, 65537, 64)?;
    say_numbers(rt, "pointer 4294967295", 1, 64, 0, 4294967295, 64)
}

// "An unopened line has N, capacity, size and pointer 0, and the plain view".
fn test_unopened(rt: &impl Print) -> io::Result<()> {
    let line = Line::unopened();
    say(rt, "unopened", line, 0)?;
    say_numbers(rt, "unopened with a capacity", 0, 8, 0, 0, 64)?;
    say_numbers(rt, "unopened with a size", 0, 0, 1, 0, 64)?;
    say_numbers(rt, "unopened with a pointer", 0, 0, 0, 1, 64)?;
    say_lane(
        rt,
        "unopened with a lane gathered",
        line,
        0,
        Phase::Gathered(0),
        0,
    )?;
    say_lane(rt, "unopened with a flag up", line, 0, Phase::Idle, 1)
}

fn with_view(line: Line, displacement: u32, extent: u16, used: u8, last: Block) -> Line {
    let mut view = View {
        displacement,
        extent,
        used,
        ..View::PLAIN
    };
    view.block[7] = last;
    Line { view, ..line }
}

fn say_view(
    rt: &impl Print,
    what: &str,
    line: Line,
    displacement: u32,
    extent: u16,
    used: u8,
    last: Block,
) -> io::Result<()> {
    say(
        rt,
        what,
        with_view(line, displacement, extent, used, last),
        64,
    )
}

fn test_views(rt: &impl Print) -> io::Result<()> {
    let block = Block {
        start: 1,
        length: 1,
    };
    let none = Block::UNUSED;
    let unopened = Line::unopened();
    let line = idle();
    say_view(rt, "unopened with an extent of 2", unopened, 0, 2, 1, none)?;
    say_view(
        rt,
        "unopened with an unused block set",
        unopened,
        0,
        1,
        1,
        block,
    )?;
    say_view(rt, "displacement at the capacity", line, 64, 1, 1, none)?;
    say_view(rt, "displacement past the capacity", line, 65, 1, 1, none)?;
    say_view(rt, "extent 0", line, 0, 0, 1, none)?;
    say_view(rt, "unused block set", line, 0, 1, 1, block)?;
    say_view(rt, "9 blocks", line, 0, 1, 9, none)
}

// "A flag is 1 for waiting, woken and holding lanes and no others".
fn test_flags(rt: &impl Print) -> io::Result<()> {
    let line = idle();
    say_lane(rt, "a holder", line, 0, holding(3), 1)?;
    say_lane(rt, "a holder with flag 2", line, 0, holding(3), 2)?;
    say_lane(rt, "a holder with flag 0", line, 0, holding(3), 0)?;
    say_lane(rt, "an idle lane with flag 1", line, 1, Phase::Idle, 1)?;
    say_lane(rt, "an idle lane with flag 255", line, 1, Phase::Idle, 255)?;
    say_lane(rt, "a busy lane with flag 1", held(), 1, reading(0, 1), 1)
}

// "If a flag is 1, exactly one lane is woken or holding, and its value is the pointer".
fn test_turn(rt: &impl Print) -> io::Result<()> {
    let line = idle();
    let one = held();
    say_lane(rt, "a holder and a lane that waits", one, 2, waiting(), 1)?;
    say_lane(rt, "a lane that waits for nobody", line, 0, waiting(), 1)?;
    say_lane(rt, "two holders", one, 1, holding(3), 1)?;
    say_lane(rt, "a holder and a woken lane", one, 1, woken(3), 1)?;
    say_lane(
        rt,
        "a holder's value below the pointer",
        line,
        0,
        holding(2),
        1,
    )?;
    say_lane(
        rt,
        "a woken lane's value past the pointer",
        line,
        0,
        woken(4),
        1,
    )
}

// "If a lane is gathered, all are idle or gathered, not all gathered, and the gathered total fits".
fn test_gathered(rt: &impl Print) -> io::Result<()> {
    let one = with(idle(), 0, Phase::Gathered(2), 0);
    let two = with(one, 1, Phase::Gathered(3), 0);
    say(rt, "gathered up to the capacity", two, 64)?;
    say_lane(
        rt,
        "gathered past the capacity",
        two,
        1,
        Phase::Gathered(4),
        0,
    )?;
    say_lane(rt, "all gathered", two, 2, Phase::Gathered(0), 0)?;
    say_lane(rt, "gathered beside a busy lane", one, 1, reading(0, 1), 0)?;
    say_lane(rt, "gathered beside a holder", one, 1, holding(3), 1)?;
    let far = numbers(2, 8, 0, 65536);
    say_lane(
        rt,
        "gathered with count 0 at the greatest pointer",
        far,
        0,
        Phase::Gathered(0),
        0,
    )
}

// "Busy lanes have a record left and regions that end at or below the pointer ..; a writer's records fit".
fn test_busy(rt: &impl Print) -> io::Result<()> {
    let line = idle();
    say_lane(rt, "a writer up to the pointer", line, 0, writing(1, 2), 0)?;
    say_lane(rt, "a writer with nothing left", line, 0, writing(1, 0), 0)?;
    say_lane(rt, "a writer past the pointer", line, 0, writing(1, 3), 0)?;
    say_lane(
        rt,
        "a region whose end is past 32 bits",
        line,
        0,
        reading(4294967295, 4),
        0,
    )?;
    let small = numbers(3, 16, 0, 9);
    say_lane(
        rt,
        "a writer up to the capacity",
        small,
        0,
        writing(1, 1),
        0,
    )?;
    say_lane(rt, "a writer past the capacity", small, 0, writing(2, 1), 0)?;
    say_lane(rt, "a reader past the capacity", small, 0, reading(2, 1), 0)
}

// ".. and share no place".
fn test_apart(rt: &impl Print) -> io::Result<()> {
    let one = with(idle(), 0, writing(1, 1), 0);
    say_lane(rt, "regions that touch above", one, 2, reading(2, 1), 0)?;
    say_lane(rt, "regions that touch below", one, 2, reading(0, 1), 0)?;
    say_lane(rt, "a region within another", one, 2, reading(0, 3), 0)?;
    say_lane(
        rt,
        "regions with one place in common",
        one,
        2,
        reading(1, 2),
        0,
    )
}

// "Entries past N are idle with flag 0".
fn test_past(rt: &impl Print) -> io::Result<()> {
    let line = idle();
    say_lane(rt, "busy at N - 1", line, 2, reading(0, 1), 0)?;
    say_lane(rt, "busy at N", line, 3, reading(0, 1), 0)?;
    say_lane(rt, "busy at 63", line, 63, reading(0, 1), 0)?;
    say_lane(rt, "busy at 127", line, 127, reading(0, 1), 0)?;
    say_lane(rt, "a holder at N", line, 3, holding(3), 1)?;
    say_lane(rt, "a flag up at N", held(), 3, Phase::Idle, 1)
}

fn print_all(rt: &impl Print) -> io::Result<()> {
    test_numbers(rt)?;
    test_more_numbers(rt)?;
    test_unopened(rt)?;
    test_views(rt)?;
    test_flags(rt)?;
    test_turn(rt)?;
    test_gathered(rt)?;
    test_busy(rt)?;
    test_apart(rt)?;
    test_past(rt)
}

// Text that cannot be written shows by the output alone.
fn main(rt: HostRuntime) {
    let _ = print_all(&rt);
}
