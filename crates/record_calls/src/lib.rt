// The calls on records as changes, by a lane of an open line (`lane_calls` gives 4 and 8): 05 write, 06 read, 07 put and 08 look; and the bytes that a record put changes.
#![tactic(auto)]

ghost use Rattle.std.specs.Prelude.{◌+◌, ◌-◌, ◌≤◌, ◌<◌, max, true, ◌≡◌, leb, length};
ghost use Rattle.view.specs.View.{most_position};
ghost use Rattle.limits.specs.Limits.{most_pointer};
ghost use Rattle.line.specs.Line.{place_in};
ghost use Rattle.record_calls.specs.Records.{book_after, look_at, put_at, read_by, record_found, record_in, record_put, storable, writable, written_by};

use changes::phases::{to_read, to_write};
use changes::{Change, Seen, keep, refuse};
use event::Refusal;
use line::Phase;
use steps::Answer;
use view::{Place, Position};

mod bytes;

// A record put at a position: the size is the end of the furthest record.
fn put_at(seen: Seen, position: Position, phase: Phase) -> Change
    requires { position.0 + 8 ≤ seen.capacity }
    ensures { result ≡ record_put seen position phase }
{
    let end = position.0 as u32 + 8;
    Change {
        phase,
        size: seen.size.max(end),
        ..keep(seen, Answer::Wrote { position })
    }
}

// Whether a record at a position ends within so many bytes.
fn ends_within(position: Position, bytes: u32) -> bool
    requires { position.0 < most_position }
    ensures { result ≡ leb (position.0 + 8) bytes }
{
    position.0 + 8 <= u64::from(bytes)
}

// The record at a position, or none where it ends past the size.
fn record_at(position: Position, size: u32, book: &[u8]) -> Answer
    requires { (position.0 < most_position) × (size ≤ length book.now) }
    ensures { result ≡ record_in position size book.now }
{
    if !ends_within(position, size) {
        return Answer::None;
    }
    let content = bytes::load_record(book, position.0 as usize);
    Answer::Record { content }
}

// A record looked for at a position, and the lane's phase after it.
fn find_at(seen: Seen, position: Position, book: &[u8], phase: Phase) -> Change
    requires { (position.0 < most_position) × (seen.size ≤ length book.now) }
    ensures { result ≡ record_found seen position book.now phase }
{
    Change {
        phase,
        ..keep(seen, record_at(position, seen.size, book))
    }
}

// 05: a busy writer puts its next record, which stands at `position`; after its last it is idle.
pub fn write(seen: Seen, position: Position) -> Change
    requires { ((place_in seen.phase).0 ≤ most_pointer) × (writable seen position ≡ true) }
    ensures { result ≡ written_by seen position seen.phase }
{
    match seen.phase {
        Phase::BusyWriting { left, next } => put_at(
            seen,
            position,
            to_write(left.saturating_sub(1), Place(next.0 + 1)),
        ),
        _ => refuse(seen, Refusal::WrongPhase),
    }
}

// 06: a busy reader gets its next record, which stands at `position`, or none; either uses one up, and after its last it is idle.
pub fn read(seen: Seen, position: Position, book: &[u8]) -> Change
    requires { ((place_in seen.phase).0 ≤ most_pointer) × (position.0 < most_position) × (seen.size ≤ length book.now) }
    ensures { result ≡ read_by seen position book.now seen.phase }
{
    match seen.phase {
        Phase::BusyReading { left, next } => find_at(
            seen,
            position,
            book,
            to_read(left.saturating_sub(1), Place(next.0 + 1)),
        ),
        _ => refuse(seen, Refusal::WrongPhase),
    }
}

// 07: the holder of the whole book puts a record at any place; `position` is where that is.
pub fn put(seen: Seen, position: Position) -> Change
    requires { position.0 < most_position }
    ensures { result ≡ put_at seen position }
{
    if !phase_tests::holds_whole(seen.phase) {
        return refuse(seen, Refusal::WrongPhase);
    }
    if !ends_within(position, seen.capacity) {
        return refuse(seen, Refusal::NoRoom);
    }
    put_at(seen, position, seen.phase)
}

// 08: the holder of the whole book looks at any place; `position` is where that is.
pub fn look(seen: Seen, position: Position, book: &[u8]) -> Change
    requires { (position.0 < most_position) × (seen.size ≤ length book.now) }
    ensures { result ≡ look_at seen position book.now }
{
    if !phase_tests::holds_whole(seen.phase) {
        return refuse(seen, Refusal::WrongPhase);
    }
    find_at(seen, position, book, seen.phase)
}

// Stores the record that was put, at the position of the answer; a refusal changes no byte.
pub fn store(book: &mut [u8], answer: Answer, content: u64)
    requires { storable answer (length book.old) ≡ true }
    ensures { book.new ≡ book_after content book.old answer }
{
    if let Answer::Wrote { position } = answer {
        bytes::store_record(book, position.0 as usize, content);
    }
}
