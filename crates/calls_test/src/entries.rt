// A case: a call on a line and a fresh book, then all that it did.
use crate::book::fill;
use crate::differences::tell;
use event::Event;
use line::Line;
use steps::Outcome;

// The event of a kind and a body; of an unlisted kind the unlisted one.
fn event_of(kind: u8, body: &[u8]) -> Event {
    match decode::read_body(kind, body, 0) {
        Ok(Some((event, _))) => event,
        _ => Event::Unlisted,
    }
}

// The entry for an event's kind, with the event's fields.
fn call(line: Line, book: &mut [u8], event: Event) -> Outcome {
    match event {
        Event::Open { lanes, capacity } => calls::open(line, book, lanes, capacity),
        Event::Want { lane, purpose } => calls::want(line, book, lane, purpose),
        Event::Receive { lane } => calls::receive(line, book, lane),
        Event::Take { lane, count } => calls::take(line, book, lane, count),
        Event::Write { lane, content } => calls::write(line, book, lane, content),
        Event::Read { lane } => calls::read(line, book, lane),
        Event::Put {
            lane,
            place,
            content,
        } => calls::put(line, book, lane, place, content),
        Event::Look { lane, place } => calls::look(line, book, lane, place),
        Event::Free { lane } => calls::free(line, book, lane),
        Event::Enter { lane, count } => calls::enter(line, book, lane, count),
        Event::View {
            displacement,
            extent,
            used,
            blocks,
        } => calls::set_view(line, book, displacement, extent, used, blocks),
        Event::Seek { whence, offset } => calls::seek(line, book, whence, offset),
        Event::Unlisted => event_calls::call_event(line, book, Event::Unlisted),
    }
}

// A call by its entry, or as a kind and body bytes.
fn answer(as_bytes: bool, line: Line, book: &mut [u8], kind: u8, body: &[u8]) -> Outcome {
    if as_bytes {
        return event_calls::call_bytes(line, book, kind, body);
    }
    call(line, book, event_of(kind, body))
}

// A case with a lent book.
pub fn case(label: &[u8], as_bytes: bool, line: Line, book: &mut [u8], kind: u8, body: &[u8]) {
    fill(book);
    let out = answer(as_bytes, line, book, kind, body);
    tell(label, line, out, book);
}
