// The calls 05 write, 06 read, 07 put and 08 look of a sheet.
ghost use Rattle.std.specs.Prelude.{◌+◌, ◌≤◌, true, ◌≡◌, length};
ghost use Rattle.limits.specs.Limits.{most_pointer};
ghost use Rattle.tiling.specs.Tiling.{Shows, table_position};
ghost use Rattle.line.specs.Line.{place_in};
ghost use Rattle.record_calls.specs.Records.{writable};
ghost use Rattle.changes.specs.Change.{Counted};
ghost use Rattle.answer_text.specs.Printing.{most_values};
ghost use Rattle.sheet_calls.specs.Calls.{RanLook, RanPut, RanRead, RanWrite};

use crate::{Called, Caller, Table, call_active, cut_short};
use decode_fields::Field;
use kind_text::{put_read, put_written};
use phase_tests::place_in;

// 05.
pub fn call_write(
    caller: Caller,
    table: Table<'_>,
    book: &mut [u8],
    sheet: &[u8],
    out: &mut [u8],
    at: usize,
) -> Called
    requires state { Counted caller.counts caller.seen.phase × Shows table.tiling × ((place_in caller.seen.phase).0 ≤ most_pointer) × (caller.seen.capacity ≤ length book.old) }
    requires writer { writable caller.seen (table_position table.tiling table.records.now (place_in caller.seen.phase)) ≡ true }
    requires room { (caller.head.to + 8 ≤ length sheet.now) × (at + most_values ≤ length out.old) }
    ensures { RanWrite caller.seen caller.counts table.entry.tiling table.entry.records.now book.old sheet.now caller.head.to out.old at result book.new out.new }
{
    let Some((content, next)) = u64::read(sheet, caller.head.to) else {
        return cut_short(caller, at);
    };
    let position = table.position(u64::from(place_in(caller.seen.phase).0));
    let change = record_calls::write(caller.seen, position);
    record_calls::store(book, change.answer, content);
    let end = put_written(out, at, change.answer);
    call_active(caller.counts, change, end, next)
}

// 06.
pub fn call_read(caller: Caller, table: Table<'_>, book: &[u8], out: &mut [u8], at: usize) -> Called
    requires state { Counted caller.counts caller.seen.phase × Shows table.tiling × ((place_in caller.seen.phase).0 ≤ most_pointer) × (caller.seen.size ≤ length book.now) }
    requires room { at + most_values ≤ length out.old }
    ensures { RanRead caller.seen caller.counts table.entry.tiling table.entry.records.now book.now caller.head.to out.old at result out.new }
{
    let position = table.position(u64::from(place_in(caller.seen.phase).0));
    let change = record_calls::read(caller.seen, position, book);
    let end = put_read(out, at, change.answer);
    call_active(caller.counts, change, end, caller.head.to)
}

// 07.
pub fn call_put(
    caller: Caller,
    table: Table<'_>,
    book: &mut [u8],
    sheet: &[u8],
    out: &mut [u8],
    at: usize,
) -> Called
    requires state { Counted caller.counts caller.seen.phase × Shows table.tiling × (caller.seen.capacity ≤ length book.old) }
    requires room { (caller.head.to + 12 ≤ length sheet.now) × (at + most_values ≤ length out.old) }
    ensures { RanPut caller.seen caller.counts table.entry.tiling table.entry.records.now book.old sheet.now caller.head.to out.old at result book.new out.new }
{
    let Some((place, to_content)) = u32::read(sheet, caller.head.to) else {
        return cut_short(caller, at);
    };
    let Some((content, next)) = u64::read(sheet, to_content) else {
        return cut_short(caller, at);
    };
    let position = table.position(u64::from(place));
    let change = record_calls::put(caller.seen, position);
    record_calls::store(book, change.answer, content);
    let end = put_written(out, at, change.answer);
    call_active(caller.counts, change, end, next)
}

// 08.
pub fn call_look(
    caller: Caller,
    table: Table<'_>,
    book: &[u8],
    sheet: &[u8],
    out: &mut [u8],
    at: usize,
) -> Called
    requires state { Counted caller.counts caller.seen.phase × Shows table.tiling × (caller.seen.size ≤ length book.now) }
    requires room { (caller.head.to + 4 ≤ length sheet.now) × (at + most_values ≤ length out.old) }
    ensures { RanLook caller.seen caller.counts table.entry.tiling table.entry.records.now book.now sheet.now caller.head.to out.old at result out.new }
{
    let Some((place, next)) = u32::read(sheet, caller.head.to) else {
        return cut_short(caller, at);
    };
    let position = table.position(u64::from(place));
    let change = record_calls::look(caller.seen, position, book);
    let end = put_read(out, at, change.answer);
    call_active(caller.counts, change, end, next)
}
