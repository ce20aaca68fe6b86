// Events read from a lent sheet at a cursor: the body of each kind, then an event.
#![tactic(auto)]

ghost use Rattle.std.specs.Prelude.{◌≡◌};
ghost use Rattle.event.specs.ReadWrite.{read_at};
ghost use Rattle.decode.specs.Body.{body_at};

use decode_fields::Field;
use event::{Cursor, Event, Reading, Refusal};
use limits::MOST_BLOCKS;
use view::{Block, Place};

// 01 open: lanes 1, capacity 4.
#[tactic(auto, using(crate::proofs::Bodies::cuts))]
fn read_open(sheet: &[u8], at: usize) -> Reading
    ensures { result ≡ body_at 0x01 sheet.now at }
{
    let Some((lanes, to_capacity)) = u8::read(sheet, at) else {
        return Err(Refusal::CutShort);
    };
    let Some((capacity, end)) = u32::read(sheet, to_capacity) else {
        return Err(Refusal::CutShort);
    };
    let event = Event::Open { lanes, capacity };
    Ok(Some((event, Cursor { at: end })))
}

// 02 want: lane 1, purpose 1.
#[tactic(auto, using(crate::proofs::Bodies::cuts))]
fn read_want(sheet: &[u8], at: usize) -> Reading
    ensures { result ≡ body_at 0x02 sheet.now at }
{
    let Some((lane, to_purpose)) = u8::read(sheet, at) else {
        return Err(Refusal::CutShort);
    };
    let Some((purpose, end)) = u8::read(sheet, to_purpose) else {
        return Err(Refusal::CutShort);
    };
    let event = Event::Want { lane, purpose };
    Ok(Some((event, Cursor { at: end })))
}

// 03 receive: lane 1.
#[tactic(auto, using(crate::proofs::Bodies::cuts))]
fn read_receive(sheet: &[u8], at: usize) -> Reading
    ensures { result ≡ body_at 0x03 sheet.now at }
{
    let Some((lane, end)) = u8::read(sheet, at) else {
        return Err(Refusal::CutShort);
    };
    let event = Event::Receive { lane };
    Ok(Some((event, Cursor { at: end })))
}

// 04 take: lane 1, count 2.
#[tactic(auto, using(crate::proofs::Bodies::cuts))]
fn read_take(sheet: &[u8], at: usize) -> Reading
    ensures { result ≡ body_at 0x04 sheet.now at }
{
    let Some((lane, to_count)) = u8::read(sheet, at) else {
        return Err(Refusal::CutShort);
    };
    let Some((count, end)) = u16::read(sheet, to_count) else {
        return Err(Refusal::CutShort);
    };
    let event = Event::Take { lane, count };
    Ok(Some((event, Cursor { at: end })))
}

// 05 write: lane 1, record 8.
#[tactic(auto, using(crate::proofs::Bodies::cuts))]
fn read_write(sheet: &[u8], at: usize) -> Reading
    ensures { result ≡ body_at 0x05 sheet.now at }
{
    let Some((lane, to_content)) = u8::read(sheet, at) else {
        return Err(Refusal::CutShort);
    };
    let Some((content, end)) = u64::read(sheet, to_content) else {
        return Err(Refusal::CutShort);
    };
    let event = Event::Write { lane, content };
    Ok(Some((event, Cursor { at: end })))
}

// 06 read: lane 1.
#[tactic(auto, using(crate::proofs::Bodies::cuts))]
fn read_read(sheet: &[u8], at: usize) -> Reading
    ensures { result ≡ body_at 0x06 sheet.now at }
{
    let Some((lane, end)) = u8::read(sheet, at) else {
        return Err(Refusal::CutShort);
    };
    let event = Event::Read { lane };
    Ok(Some((event, Cursor { at: end })))
}

// 07 put: lane 1, place 4, record 8.
#[tactic(auto, using(crate::proofs::Bodies::cuts))]
fn read_put(sheet: &[u8], at: usize) -> Reading
    ensures { result ≡ body_at 0x07 sheet.now at }
{
    let Some((lane, to_place)) = u8::read(sheet, at) else {
        return Err(Refusal::CutShort);
    };
    let Some((place, to_content)) = u32::read(sheet, to_place) else {
        return Err(Refusal::CutShort);
    };
    let Some((content, end)) = u64::read(sheet, to_content) else {
        return Err(Refusal::CutShort);
    };
    let event = Event::Put {
        lane,
        place: Place(place),
        content,
    };
    Ok(Some((event, Cursor { at: end })))
}

// 08 look: lane 1, place 4.
#[tactic(auto, using(crate::proofs::Bodies::cuts))]
fn read_look(sheet: &[u8], at: usize) -> Reading
    ensures { result ≡ body_at 0x08 sheet.now at }
{
    let Some((lane, to_place)) = u8::read(sheet, at) else {
        return Err(Refusal::CutShort);
    };
    let Some((place, end)) = u32::read(sheet, to_place) else {
        return Err(Refusal::CutShort);
    };
    let event = Event::Look {
        lane,
        place: Place(place),
    };
    Ok(Some((event, Cursor { at: end })))
}

// 09 free: lane 1.
#[tactic(auto, using(crate::proofs::Bodies::cuts))]
fn read_free(sheet: &[u8], at: usize) -> Reading
    ensures { result ≡ body_at 0x09 sheet.now at }
{
    let Some((lane, end)) = u8::read(sheet, at) else {
        return Err(Refusal::CutShort);
    };
    let event = Event::Free { lane };
    Ok(Some((event, Cursor { at: end })))
}

// 0A enter: lane 1, count 2.
#[tactic(auto, using(crate::proofs::Bodies::cuts))]
fn read_enter(sheet: &[u8], at: usize) -> Reading
    ensures { result ≡ body_at 0x0A sheet.now at }
{
    let Some((lane, to_count)) = u8::read(sheet, at) else {
        return Err(Refusal::CutShort);
    };
    let Some((count, end)) = u16::read(sheet, to_count) else {
        return Err(Refusal::CutShort);
    };
    let event = Event::Enter { lane, count };
    Ok(Some((event, Cursor { at: end })))
}

// 0B view: displacement 4, extent 2, blocks 1, eight times (start 2, length 2).
#[tactic(auto, using(crate::proofs::Bodies::cuts))]
fn read_view(sheet: &[u8], at: usize) -> Reading
    ensures { result ≡ body_at 0x0B sheet.now at }
{
    let Some((displacement, to_extent)) = u32::read(sheet, at) else {
        return Err(Refusal::CutShort);
    };
    let Some((extent, to_used)) = u16::read(sheet, to_extent) else {
        return Err(Refusal::CutShort);
    };
    let Some((used, to_blocks)) = u8::read(sheet, to_used) else {
        return Err(Refusal::CutShort);
    };
    let Some(read) = <[Block; MOST_BLOCKS]>::read(sheet, to_blocks) else {
        return Err(Refusal::CutShort);
    };
    // Not by a pattern: the check does not cover an array that is bound within a tuple.
    let blocks = read.0;
    let end = read.1;
    let event = Event::View {
        displacement,
        extent,
        used,
        blocks,
    };
    Ok(Some((event, Cursor { at: end })))
}

// 0C seek: whence 1, signed offset 4.
#[tactic(auto, using(crate::proofs::Bodies::cuts))]
fn read_seek(sheet: &[u8], at: usize) -> Reading
    ensures { result ≡ body_at 0x0C sheet.now at }
{
    let Some((whence, to_offset)) = u8::read(sheet, at) else {
        return Err(Refusal::CutShort);
    };
    let Some((offset, end)) = u32::read(sheet, to_offset) else {
        return Err(Refusal::CutShort);
    };
    let event = Event::Seek {
        whence,
        offset: decode_fields::signed_of(offset),
    };
    Ok(Some((event, Cursor { at: end })))
}

// The event of a kind whose body starts at an index, or refusal 2 or 3.
#[tactic(auto, using(crate::proofs::Bodies::body_of_none))]
pub fn read_body(kind: u8, sheet: &[u8], at: usize) -> Reading
    ensures { result ≡ body_at kind sheet.now at }
{
    match kind {
        0x01 => read_open(sheet, at),
        0x02 => read_want(sheet, at),
        0x03 => read_receive(sheet, at),
        0x04 => read_take(sheet, at),
        0x05 => read_write(sheet, at),
        0x06 => read_read(sheet, at),
        0x07 => read_put(sheet, at),
        0x08 => read_look(sheet, at),
        0x09 => read_free(sheet, at),
        0x0A => read_enter(sheet, at),
        0x0B => read_view(sheet, at),
        0x0C => read_seek(sheet, at),
        _ => Err(Refusal::UnlistedKind),
    }
}

// The event at a cursor and the cursor past it, the sheet's end, or refusal 2 or 3.
// By event's law read_writes_back the event's bytes are those between the two cursors.
#[tactic(auto, unfolding(crate::specs::Body::body_at, event::specs::ReadWrite::read_at))]
pub fn read_event(sheet: &[u8], cursor: Cursor) -> Reading
    ensures { result ≡ read_at sheet.now cursor.at }
{
    let at = cursor.at;
    if sheet.len() <= at {
        return Ok(None);
    }
    read_body(sheet[at], sheet, at + 1)
}
