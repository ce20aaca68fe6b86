// Sheets in words, stored in a lent buffer: a line an event, and the line at bytes that are none.
#![tactic(auto)]

ghost use Rattle.std.specs.Prelude.{◌+◌, ◌≤◌, ◌<◌, ◌≡◌, [], ◌∷◌, ◌++◌, length};
ghost use Rattle.printout.specs.Text.{ascii};
ghost use Rattle.printout.specs.Print.{decimal, hex_in, words};
ghost use Rattle.number_text.specs.Stored.{Stored};
ghost use Rattle.event_text.specs.Reasons.{reason_text};
ghost use Rattle.event_text.specs.Show.{StoredTwo, block_text, block_words, event_line, event_words, most_event_line, most_words, refusal_line, signed_text};

use encode_fields::unsigned_of;
use event::Event;
use limits::MOST_BLOCKS;
use view::Block;
use word_text::{BLANK, LINE_END, put_number, put_record, put_word};

// The last number of a reason for refusing.
pub const LAST_REASON: u8 = 17;

// A word and the byte after it. All functions here return the index after what they stored.
pub fn word(out: &mut [u8], at: usize, text: &[u8], after: u8) -> usize
    requires { at + length text.now + 1 ≤ length out.old }
    ensures { Stored (text.now ++ after ∷ []) out.old at out.new result × (result ≡ at + length text.now + 1) }
{
    put_word(out, at, text, after)
}

// A number in decimal, of at most 20 digits, and the byte after it.
pub fn number(out: &mut [u8], at: usize, n: u64, after: u8) -> usize
    requires { at + 21 ≤ length out.old }
    ensures { Stored (decimal n ++ after ∷ []) out.old at out.new result × (result ≤ at + 21) }
{
    put_number(out, at, n, after)
}

// A byte.
fn mark(out: &mut [u8], at: usize, byte: u8) -> usize
    requires { at + 1 ≤ length out.old }
    ensures { Stored (byte ∷ []) out.old at out.new result × (result ≡ at + 1) }
{
    out[at] = byte;
    at + 1
}

// A record in hexadecimal, to the line's end.
#[tactic(auto, using(crate::proofs::Shown::record_length))]
fn recorded(out: &mut [u8], at: usize, content: u64) -> usize
    requires { at + 24 ≤ length out.old }
    ensures { Stored (words (ascii "record" ∷ hex_in 16 content ∷ [])) out.old at out.new result × (result ≤ at + 24) }
{
    put_record(out, at, content)
}

// A name, a number and the byte after it.
pub fn named(out: &mut [u8], at: usize, name: &[u8], n: u64, after: u8) -> usize
    requires { at + length name.now + 22 ≤ length out.old }
    ensures { StoredTwo (name.now ++ 32 ∷ []) (decimal n ++ after ∷ []) out.old at out.new result × (result ≤ at + length name.now + 22) }
{
    let next = word(out, at, name, BLANK);
    number(out, next, n, after)
}

// Two named numbers, to the line's end.
fn put_fields(out: &mut [u8], at: usize, first: &[u8], a: u8, second: &[u8], b: u64) -> usize
    requires { at + length first.now + length second.now + 44 ≤ length out.old }
    ensures { Stored (words (first.now ∷ decimal a ∷ second.now ∷ decimal b ∷ [])) out.old at out.new result × (result ≤ at + length first.now + length second.now + 44) }
{
    let next = named(out, at, first, u64::from(a), BLANK);
    named(out, next, second, b, LINE_END)
}

// 01 open: how many lanes, and the capacity.
fn put_open(out: &mut [u8], at: usize, lanes: u8, capacity: u32) -> usize
    requires { at + most_words ≤ length out.old }
    ensures { Stored (words (ascii "open    lanes" ∷ decimal lanes ∷ ascii "capacity" ∷ decimal capacity ∷ [])) out.old at out.new result × (result ≤ at + most_words) }
{
    put_fields(
        out,
        at,
        b"open    lanes",
        lanes,
        b"capacity",
        u64::from(capacity),
    )
}

// 02 want: a lane and a purpose.
fn put_want(out: &mut [u8], at: usize, lane: u8, purpose: u8) -> usize
    requires { at + most_words ≤ length out.old }
    ensures { Stored (words (ascii "want    lane" ∷ decimal lane ∷ ascii "purpose" ∷ decimal purpose ∷ [])) out.old at out.new result × (result ≤ at + most_words) }
{
    put_fields(
        out,
        at,
        b"want    lane",
        lane,
        b"purpose",
        u64::from(purpose),
    )
}

// 05 write: a lane and a record.
fn put_write(out: &mut [u8], at: usize, lane: u8, content: u64) -> usize
    requires { at + most_words ≤ length out.old }
    ensures { Stored (words (ascii "write   lane" ∷ decimal lane ∷ ascii "record" ∷ hex_in 16 content ∷ [])) out.old at out.new result × (result ≤ at + most_words) }
{
    let next = named(out, at, b"write   lane", u64::from(lane), BLANK);
    recorded(out, next, content)
}

// 07 put: a lane, a place and a record.
fn put_put(out: &mut [u8], at: usize, lane: u8, place: u32, content: u64) -> usize
    requires { at + most_words ≤ length out.old }
    ensures { Stored (words (ascii "put     lane" ∷ decimal lane ∷ ascii "place" ∷ decimal place ∷ ascii "record" ∷ hex_in 16 content ∷ [])) out.old at out.new result × (result ≤ at + most_words) }
{
    let next = named(out, at, b"put     lane", u64::from(lane), BLANK);
    let then = named(out, next, b"place", u64::from(place), BLANK);
    recorded(out, then, content)
}

// A number, the byte after it and a blank.
pub fn put_marked(out: &mut [u8], at: usize, n: u64, after: u8) -> usize
    requires { at + 22 ≤ length out.old }
    ensures { StoredTwo (decimal n ++ after ∷ []) (32 ∷ []) out.old at out.new result × (result ≤ at + 22) }
{
    let end = number(out, at, n, after);
    mark(out, end, BLANK)
}

// A block and the byte after it.
fn put_block(out: &mut [u8], at: usize, block: Block, after: u8) -> usize
    requires { at + 46 ≤ length out.old }
    ensures { Stored (block_text block ++ after ∷ []) out.old at out.new result × (result ≤ at + 46) }
{
    let to1 = mark(out, at, b'(');
    let to2 = put_marked(out, to1, u64::from(block.start), b',');
    let to3 = number(out, to2, u64::from(block.length), b')');
    mark(out, to3, after)
}

// Two blocks and the byte after them.
fn put_two_blocks(out: &mut [u8], at: usize, a: Block, b: Block, after: u8) -> usize
    requires { at + 92 ≤ length out.old }
    ensures { StoredTwo (block_text a ++ 32 ∷ []) (block_text b ++ after ∷ []) out.old at out.new result × (result ≤ at + 92) }
{
    let next = put_block(out, at, a, BLANK);
    put_block(out, next, b, after)
}

// The eight blocks of a view, to the line's end.
fn put_blocks(out: &mut [u8], at: usize, blocks: [Block; MOST_BLOCKS]) -> usize
    requires { at + 368 ≤ length out.old }
    ensures { Stored (words (block_words blocks)) out.old at out.new result × (result ≤ at + 368) }
{
    let to1 = put_two_blocks(out, at, blocks[0], blocks[1], BLANK);
    let to2 = put_two_blocks(out, to1, blocks[2], blocks[3], BLANK);
    let to3 = put_two_blocks(out, to2, blocks[4], blocks[5], BLANK);
    put_two_blocks(out, to3, blocks[6], blocks[7], LINE_END)
}

// 0B view.
fn put_view(
    out: &mut [u8],
    at: usize,
    displacement: u32,
    extent: u16,
    used: u8,
    blocks: [Block; MOST_BLOCKS],
) -> usize
    requires { at + most_words ≤ length out.old }
    ensures { Stored (words (ascii "view    displacement" ∷ decimal displacement ∷ ascii "extent" ∷ decimal extent ∷ ascii "blocks" ∷ decimal used ∷ block_words blocks)) out.old at out.new result × (result ≤ at + most_words) }
{
    let to1 = named(
        out,
        at,
        b"view    displacement",
        u64::from(displacement),
        BLANK,
    );
    let to2 = named(out, to1, b"extent", u64::from(extent), BLANK);
    let to3 = named(out, to2, b"blocks", u64::from(used), BLANK);
    put_blocks(out, to3, blocks)
}

// A number of two's complement, with its sign, and the byte after it.
#[tactic(auto, using(number_text::proofs::Stores::and_then))]
fn put_signed(out: &mut [u8], at: usize, n: u32, after: u8) -> usize
    requires { at + 22 ≤ length out.old }
    ensures { Stored (signed_text n ++ after ∷ []) out.old at out.new result × (result ≤ at + 22) }
{
    if n < 2147483648 {
        number(out, at, u64::from(n), after)
    } else {
        let next = mark(out, at, b'-');
        number(out, next, 4294967296 - u64::from(n), after)
    }
}

// 0C seek: a whence and a signed offset.
fn put_seek(out: &mut [u8], at: usize, whence: u8, offset: u32) -> usize
    requires { at + most_words ≤ length out.old }
    ensures { Stored (words (ascii "seek    whence" ∷ decimal whence ∷ ascii "offset" ∷ signed_text offset ∷ [])) out.old at out.new result × (result ≤ at + most_words) }
{
    let next = named(out, at, b"seek    whence", u64::from(whence), BLANK);
    let then = word(out, next, b"offset", BLANK);
    put_signed(out, then, offset, LINE_END)
}

// An event's line from its kind's word on.
pub fn put_event(out: &mut [u8], at: usize, event: Event) -> usize
    requires { at + most_words ≤ length out.old }
    ensures { Stored (words (event_words event)) out.old at out.new result × (result ≤ at + most_words) }
{
    match event {
        Event::Open { lanes, capacity } => put_open(out, at, lanes, capacity),
        Event::Want { lane, purpose } => put_want(out, at, lane, purpose),
        Event::Receive { lane } => named(out, at, b"receive lane", u64::from(lane), LINE_END),
        Event::Take { lane, count } => {
            put_fields(out, at, b"take    lane", lane, b"count", u64::from(count))
        }
        Event::Write { lane, content } => put_write(out, at, lane, content),
        Event::Read { lane } => named(out, at, b"read    lane", u64::from(lane), LINE_END),
        Event::Put {
            lane,
            place,
            content,
        } => put_put(out, at, lane, place.0, content),
        Event::Look { lane, place } => {
            put_fields(out, at, b"look    lane", lane, b"place", u64::from(place.0))
        }
        Event::Free { lane } => named(out, at, b"free    lane", u64::from(lane), LINE_END),
        Event::Enter { lane, count } => {
            put_fields(out, at, b"enter   lane", lane, b"count", u64::from(count))
        }
        Event::View {
            displacement,
            extent,
            used,
            blocks,
        } => put_view(out, at, displacement, extent, used, blocks),
        Event::Seek { whence, offset } => put_seek(out, at, whence, unsigned_of(offset)),
        Event::Unlisted => word(out, at, b"unlisted", LINE_END),
    }
}

// The line of an event, at the buffer's start: its number, its kind's word and its named fields.
pub fn show_event(out: &mut [u8], count: u64, event: Event) -> usize
    requires { most_event_line ≤ length out.old }
    ensures { Stored (event_line count event) out.old 0 out.new result × (result ≤ length out.old) }
{
    let next = number(out, 0, count, BLANK);
    put_event(out, next, event)
}

// The reason of a refusal, and the line end; of a number that is no reason's the line end alone.
#[tactic(auto, using(crate::proofs::Reasons::no_reason), unfolding(printout::specs::Print::words))]
pub fn put_reason(out: &mut [u8], at: usize, refusal: u8) -> usize
    requires { at + 26 ≤ length out.old }
    ensures { Stored (words (reason_text refusal ∷ [])) out.old at out.new result × (result ≤ at + 26) }
{
    match refusal {
        1 => word(out, at, b"line not sound", LINE_END),
        2 => word(out, at, b"kind not listed", LINE_END),
        3 => word(out, at, b"body cut short", LINE_END),
        4 => word(out, at, b"line not open", LINE_END),
        5 => word(out, at, b"line already open", LINE_END),
        6 => word(out, at, b"lanes out of range", LINE_END),
        7 => word(out, at, b"capacity out of range", LINE_END),
        8 => word(out, at, b"no such lane", LINE_END),
        9 => word(out, at, b"purpose or whence above 2", LINE_END),
        10 => word(out, at, b"view breaks a rule", LINE_END),
        11 => word(out, at, b"a lane is not idle", LINE_END),
        12 => word(out, at, b"a lane is gathered", LINE_END),
        13 => word(out, at, b"wrong phase or purpose", LINE_END),
        14 => word(out, at, b"no wake yet", LINE_END),
        15 => word(out, at, b"pointer out of range", LINE_END),
        16 => word(out, at, b"records do not fit", LINE_END),
        17 => word(out, at, b"report or sheet too large", LINE_END),
        _ => word(out, at, b"", LINE_END),
    }
}

// The line at bytes that are no event: the number that an event would have, the byte and the reason.
pub fn show_refusal(out: &mut [u8], count: u64, byte: u64, refusal: u8) -> usize
    requires { most_event_line ≤ length out.old }
    ensures { Stored (refusal_line count byte refusal) out.old 0 out.new result × (result ≤ length out.old) }
{
    let next = number(out, 0, count, BLANK);
    let then = word(out, next, b"at byte", BLANK);
    let last = put_marked(out, then, byte, b':');
    put_reason(out, last, refusal)
}
