// The calls 02 want, 03 receive, 04 take and 09 free of a sheet.
ghost use Rattle.std.specs.Prelude.{◌+◌, ◌≤◌, length};
ghost use Rattle.limits.specs.Limits.{most_pointer};
ghost use Rattle.tiling.specs.Tiling.{Shows};
ghost use Rattle.line.specs.Line.{place_in};
ghost use Rattle.changes.specs.Change.{Counted};
ghost use Rattle.answer_text.specs.Printing.{most_values};
ghost use Rattle.sheet_calls.specs.Calls.{RanFree, RanReceive, RanTake, RanWant};

use crate::{Called, Caller, Table, call_active, call_with, cut_short, with_active};
use decode_fields::Field;
use kind_text::{put_freed_line, put_received, put_taken, put_wanted};
use limits::MOST_LANES;
use phase_tests::place_in;

// 02. The counts after it are those of a want that is accepted: the lane was idle and no longer is.
pub fn call_want(
    caller: Caller,
    flags: &[u8; MOST_LANES],
    sheet: &[u8],
    out: &mut [u8],
    at: usize,
) -> Called
    requires { Counted caller.counts caller.seen.phase × (caller.head.to + 1 ≤ length sheet.now) × (at + most_values ≤ length out.old) }
    ensures { RanWant caller.seen caller.counts caller.head.lane flags.now sheet.now caller.head.to out.old at result out.new }
{
    let Some((purpose, next)) = u8::read(sheet, caller.head.to) else {
        return cut_short(caller, at);
    };
    let change = turn_calls::want(caller.seen, flags, caller.head.lane, purpose);
    let end = put_wanted(out, at, change.answer);
    let counts = with_active(caller.counts, caller.counts.active + 1);
    call_with(counts, change, end, next)
}

// 03.
pub fn call_receive(caller: Caller, out: &mut [u8], at: usize) -> Called
    requires { Counted caller.counts caller.seen.phase × (at + most_values ≤ length out.old) }
    ensures { RanReceive caller.seen caller.counts caller.head.to out.old at result out.new }
{
    let change = turn_calls::receive(caller.seen);
    let end = put_received(out, at, change.answer);
    call_active(caller.counts, change, end, caller.head.to)
}

// 04.
pub fn call_take(
    caller: Caller,
    table: Table<'_>,
    flags: &[u8; MOST_LANES],
    sheet: &[u8],
    out: &mut [u8],
    at: usize,
) -> Called
    requires state { Counted caller.counts caller.seen.phase × Shows table.tiling × ((place_in caller.seen.phase).0 ≤ most_pointer) }
    requires room { (caller.head.to + 2 ≤ length sheet.now) × (at + most_values ≤ length out.old) }
    ensures { RanTake caller.seen caller.counts caller.head.lane table.entry.tiling table.entry.records.now flags.now sheet.now caller.head.to out.old at result out.new }
{
    let Some((count, next)) = u16::read(sheet, caller.head.to) else {
        return cut_short(caller, at);
    };
    let place = place_in(caller.seen.phase);
    let fitting = table.fits(caller.seen.capacity, place, u32::from(count));
    let change = turn_calls::take(caller.seen, fitting, flags, caller.head.lane, count);
    let end = put_taken(out, at, change.answer);
    call_active(caller.counts, change, end, next)
}

// 09.
pub fn call_free(caller: Caller, flags: &[u8; MOST_LANES], out: &mut [u8], at: usize) -> Called
    requires { Counted caller.counts caller.seen.phase × (at + most_values ≤ length out.old) }
    ensures { RanFree caller.seen caller.counts caller.head.lane flags.now caller.head.to out.old at result out.new }
{
    let change = turn_calls::free(caller.seen, flags, caller.head.lane);
    let end = put_freed_line(out, at, change.answer);
    call_active(caller.counts, change, end, caller.head.to)
}
