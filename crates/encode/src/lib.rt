// Events written into a lent buffer, with the refusals 2 and 3.
#![tactic(auto)]

ghost use Rattle.std.specs.Prelude.{◌≡◌, ◌∷◌, ◌+◌, ◌≤◌, length};
ghost use Rattle.event.specs.Event.{event_bytes, kind_of};
ghost use Rattle.event.specs.Kinds.{body_length};
ghost use Rattle.event.specs.ReadWrite.{writing_of, written_to};
ghost use Rattle.encode_fields.specs.Put.{put_fields, total};
ghost use Rattle.encode.specs.Written.{length_of_event, with_event};

use encode_fields::Field;
use event::{Event, Refusal, Writing};

// The length of an event of a listed kind; none for the one that stands for the others.
#[tactic(auto, using(event::proofs::RoundTrip::body_length_lem))]
fn length_of(event: Event) -> Option<usize>
    ensures listed { result ≡ length_of_event event }
    ensures whole { length (event_bytes event) ≡ 1 + body_length (kind_of event) }
{
    match event {
        Event::Open { .. } => Some(6),
        Event::Want { .. } => Some(3),
        Event::Receive { .. } => Some(2),
        Event::Take { .. } => Some(4),
        Event::Write { .. } => Some(10),
        Event::Read { .. } => Some(2),
        Event::Put { .. } => Some(14),
        Event::Look { .. } => Some(6),
        Event::Free { .. } => Some(2),
        Event::Enter { .. } => Some(4),
        Event::View { .. } => Some(40),
        Event::Seek { .. } => Some(6),
        Event::Unlisted => None,
    }
}

// A kind and the fields of its body, stored at the buffer's start.
fn put<F: Field + Copy>(kind: u8, fields: F, buffer: &mut [u8])
    requires { 1 + total F.lengths ≤ length buffer.old }
    ensures { buffer.new ≡ put_fields (1 ∷ F.lengths) (kind ∷ F.numbers fields) buffer.old 0 }
{
    (kind, fields).put(buffer, 0);
}

// An event of a listed kind stored at the buffer's start; an unlisted one leaves it.
#[tactic(auto, unfolding(crate::specs::Written::with_event))]
fn put_event(event: Event, buffer: &mut [u8])
    requires { 1 + body_length (kind_of event) ≤ length buffer.old }
    ensures { buffer.new ≡ with_event buffer.old event }
{
    match event {
        Event::Open { lanes, capacity } => put(0x01, (lanes, capacity), buffer),
        Event::Want { lane, purpose } => put(0x02, (lane, purpose), buffer),
        Event::Receive { lane } => put(0x03, lane, buffer),
        Event::Take { lane, count } => put(0x04, (lane, count), buffer),
        Event::Write { lane, content } => put(0x05, (lane, content), buffer),
        Event::Read { lane } => put(0x06, lane, buffer),
        Event::Put {
            lane,
            place,
            content,
        } => put(0x07, (lane, (place.0, content)), buffer),
        Event::Look { lane, place } => put(0x08, (lane, place.0), buffer),
        Event::Free { lane } => put(0x09, lane, buffer),
        Event::Enter { lane, count } => put(0x0A, (lane, count), buffer),
        Event::View {
            displacement,
            extent,
            used,
            blocks,
        } => put(0x0B, (displacement, (extent, (used, blocks))), buffer),
        Event::Seek { whence, offset } => put(
            0x0C,
            (whence, encode_fields::unsigned_of(offset)),
            buffer,
        ),
        Event::Unlisted => {}
    }
}

// An event written at the start of a lent buffer: its length, or refusal 2 or 3 and the buffer as it was.
// By event's law written_reads_back what is left reads back as the event.
#[tactic(auto, using(crate::proofs::Answers::refused_2_says, crate::proofs::Answers::refused_2_stays))]
pub fn write_event(event: Event, buffer: &mut [u8]) -> Writing
    ensures { (result ≡ writing_of buffer.old event) × (buffer.new ≡ written_to buffer.old event) }
{
    let Some(n) = length_of(event) else {
        return Err(Refusal::UnlistedKind);
    };
    if buffer.len() < n {
        return Err(Refusal::CutShort);
    }
    put_event(event, buffer);
    Ok(n)
}
