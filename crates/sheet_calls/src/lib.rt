// A lane's call of a sheet: its fields read, decided, and the line of its answer stored. Each kind has a small function with one caller, so that it is inlined there.
#![tactic(auto)]

ghost use Rattle.std.specs.Prelude.{◌+◌, ◌≤◌, ◌<◌, false, true, ◌≡◌, length};
ghost use Rattle.lists.specs.Lists.{bit};
ghost use Rattle.limits.specs.Limits.{most_lanes};
ghost use Rattle.view.specs.View.{place};
ghost use Rattle.tiling.specs.Tiling.{Shows, TablePositioned, table_fits};
ghost use Rattle.lane_tests.specs.Rules.{not_idle};
ghost use Rattle.event.specs.Refusal.{number_of};
ghost use Rattle.sheet_calls.specs.Calls.{RanCall, Ready, RefusedBy, Room, active_after, called_with, is_refusal, with_active};
ghost use Rattle.answer_text.specs.Printing.{most_values};

use answer_text::put_refused;
use call_head::{Head, rest_of};
use changes::{Change, Seen, missing_lane, refuse};
use event::Refusal;
use lane_tests::tallies::LaneCounts;
use limits::MOST_LANES;
use line::Phase;
use steps::Answer;
use tiling::{MOST_RECORDS, Tiling};
use view::{Place, Position};

mod enter;
mod records;
mod turns;

// What a call changes, the counts of all lanes after it (of a refused call they mean nothing, and are not stored), the index after its line, the index of the next event, whether it was refused, and whether it starts an ordered call.
// The answer says both; told by it, or by one enum of three, an event takes 20 to 50 instructions more.
#[derive(Clone, Copy)]
pub struct Called {
    pub change: Change,
    pub counts: LaneCounts,
    pub end: usize,
    pub next: usize,
    pub refused: bool,
    pub starts: bool,
}

// A call of a lane: its kind and lane, what the lane sees, and the counts of all lanes.
#[derive(Clone, Copy)]
pub struct Caller {
    pub head: Head,
    pub seen: Seen,
    pub counts: LaneCounts,
}

// What a position needs of a view: its three numbers, and the table of the records that it shows of a tile, lent by the run that made it.
#[derive(Clone, Copy)]
pub struct Table<'a> {
    pub tiling: Tiling,
    pub records: &'a [u16; MOST_RECORDS],
}

impl Table<'_> {
    // The position of the record with this number among those shown.
    fn position(self, number: u64) -> Position
        requires { Shows self.tiling × (number < 8589934592) }
        ensures { TablePositioned self.entry.tiling self.entry.records.now (place number) result }
    {
        self.tiling.position(self.records, number)
    }

    // Whether a run of records from a place ends at or below the capacity.
    fn fits(self, capacity: u32, place: Place, count: u32) -> bool
        requires { Shows self.tiling }
        ensures { result ≡ table_fits self.entry.tiling self.entry.records.now capacity place count }
    {
        self.tiling.fits(self.records, capacity, place, count)
    }
}

// Whether an answer is a refusal.
fn is_refusal(answer: Answer) -> bool
    ensures { result ≡ is_refusal answer }
{
    matches!(answer, Answer::Refused { number: _ })
}

// 1 for a lane that is not idle.
fn not_idle(x: Phase) -> u32
    ensures { (result ≡ bit (not_idle x)) × (result ≤ 1) }
{
    if phase_tests::is_idle(x) { 0 } else { 1 }
}

// The counts with another number of lanes that are not idle.
fn with_active(counts: LaneCounts, active: u32) -> LaneCounts
    ensures { result ≡ with_active counts active }
{
    LaneCounts { active, ..counts }
}

// A call by what it changes, the counts after it, and where its line ends.
fn call_with(counts: LaneCounts, change: Change, end: usize, next: usize) -> Called
    ensures { result ≡ called_with counts change end next }
{
    Called {
        change,
        counts,
        end,
        next,
        refused: is_refusal(change.answer),
        starts: false,
    }
}

// The same for a lane that was not idle, from the counts before the call: where the call leaves the lane idle, one lane less is not idle. A refusal leaves the counts as they are.
fn call_active(counts: LaneCounts, change: Change, end: usize, next: usize) -> Called
    requires { (is_refusal change.answer ≡ false → 1 ≤ counts.active) × (counts.active ≤ most_lanes) }
    ensures { result ≡ called_with (active_after counts change) change end next }
{
    if is_refusal(change.answer) {
        return call_with(counts, change, end, next);
    }
    let active = counts.active - 1 + not_idle(change.phase);
    call_with(with_active(counts, active), change, end, next)
}

// For a field that the sheet does not have: never reached, since a call's body is whole.
fn cut_short(caller: Caller, at: usize) -> Called
    ensures { result.refused ≡ true }
{
    Called {
        change: refuse(caller.seen, Refusal::CutShort),
        counts: caller.counts,
        end: at,
        next: caller.head.to,
        refused: true,
        starts: false,
    }
}

// A refusal of any call, with its line.
fn refused_call(caller: Caller, reason: Refusal, next: usize, out: &mut [u8], at: usize) -> Called
    requires { at + most_values ≤ length out.old }
    ensures { RefusedBy caller.seen (number_of reason) next out.old at result out.new }
{
    let end = put_refused(out, at, reason.number());
    Called {
        change: refuse(caller.seen, reason),
        counts: caller.counts,
        end,
        next,
        refused: true,
        starts: false,
    }
}

// A call of a lane: 4 and 8 come before what its kind tests.
#[tactic(auto, using(crate::proofs::Rans::by_want, crate::proofs::Rans::by_receive, crate::proofs::Rans::by_take, crate::proofs::Rans::by_write, crate::proofs::Rans::by_read, crate::proofs::Rans::by_put, crate::proofs::Rans::by_look, crate::proofs::Rans::by_free, crate::proofs::Rans::by_entered, crate::proofs::Rans::by_refused))]
pub fn call_lane(
    caller: Caller,
    table: Table<'_>,
    flags: &[u8; MOST_LANES],
    book: &mut [u8],
    sheet: &[u8],
    out: &mut [u8],
    at: usize,
) -> Called
    requires ready { Ready caller.seen caller.counts table.tiling table.records.now (length book.old) }
    requires room { Room caller.head sheet.now out.old at }
    ensures { RanCall caller.head sheet.now caller.seen caller.counts table.entry.tiling table.entry.records.now flags.now book.old out.old at result book.new out.new }
{
    let kind = caller.head.kind;
    if let Some(reason) = missing_lane(caller.seen.lanes, caller.head.lane) {
        return refused_call(caller, reason, caller.head.to + rest_of(kind), out, at);
    }
    match kind {
        0x02 => turns::call_want(caller, flags, sheet, out, at),
        0x03 => turns::call_receive(caller, out, at),
        0x04 => turns::call_take(caller, table, flags, sheet, out, at),
        0x05 => records::call_write(caller, table, book, sheet, out, at),
        0x06 => records::call_read(caller, table, book, out, at),
        0x07 => records::call_put(caller, table, book, sheet, out, at),
        0x08 => records::call_look(caller, table, book, sheet, out, at),
        0x0A => enter::call_enter(caller, table, sheet, out, at),
        _ => turns::call_free(caller, flags, out, at),
    }
}
