// The call 0A enter of a sheet.
ghost use Rattle.std.specs.Prelude.{◌+◌, ◌≤◌, ◌≡◌, length};
ghost use Rattle.limits.specs.Limits.{most_lanes, most_pointer};
ghost use Rattle.tiling.specs.Tiling.{Shows};
ghost use Rattle.answer_text.specs.Printing.{most_values};
ghost use Rattle.sheet_calls.specs.Calls.{InReach, RanEnter, Reaches, enter_change, gathered_change, is_complete};

use crate::{Called, Caller, Table, cut_short, is_refusal};
use changes::{Change, Seen, keep, refuse};
use decode_fields::Field;
use event::Refusal;
use kind_text::put_entered;
use lane_tests::tallies::LaneCounts;
use line::Phase;
use ordered_calls::{Entered, admit};
use steps::Answer;
use view::Place;

// The lane is gathered with so many records, and the pointer is where it is given.
fn gather(seen: Seen, count: u16, answer: Answer, pointer: Place) -> Change
    ensures { result ≡ gathered_change seen count answer pointer }
{
    Change {
        phase: Phase::Gathered(count),
        pointer,
        ..keep(seen, answer)
    }
}

// The change of the lane itself; with the last lane the pointer moves past the records of all, and all start, which the run does.
fn enter_change(seen: Seen, count: u16, total: u32, entered: Result<Entered, Refusal>) -> Change
    requires { Reaches seen total entered }
    ensures { result ≡ enter_change seen count total entered }
{
    let before = seen.pointer;
    match entered {
        Err(reason) => refuse(seen, reason),
        Ok(Entered::Gathered) => gather(seen, count, Answer::Gathered, before),
        Ok(Entered::Complete) => {
            let pointer = Place(before.0 + total);
            gather(seen, count, Answer::Ordered { before, total }, pointer)
        }
    }
}

// Whether all lanes are in.
fn is_complete(entered: Result<Entered, Refusal>) -> bool
    ensures { result ≡ is_complete entered }
{
    matches!(entered, Ok(Entered::Complete))
}

// 0A. The counts after it are those of a lane that got in.
pub fn call_enter(
    caller: Caller,
    table: Table<'_>,
    sheet: &[u8],
    out: &mut [u8],
    at: usize,
) -> Called
    requires state { Shows table.tiling × (caller.counts.active ≤ most_lanes) × (caller.counts.gathered ≤ most_lanes) × (caller.counts.total ≤ most_pointer) × InReach caller.seen caller.counts table.tiling table.records.now }
    requires room { (caller.head.to + 2 ≤ length sheet.now) × (at + most_values ≤ length out.old) }
    ensures { RanEnter sheet.now caller.head.to caller.seen caller.counts table.entry.tiling table.entry.records.now out.old at result out.new }
{
    let Some((count, next)) = u16::read(sheet, caller.head.to) else {
        return cut_short(caller, at);
    };
    let seen = caller.seen;
    let counts = caller.counts;
    let total = counts.total + u32::from(count);
    let fitting = table.fits(seen.capacity, seen.pointer, total);
    let last = counts.gathered + 1 == u32::from(seen.lanes);
    let entered = admit(seen.phase, counts.active == counts.gathered, fitting, last);
    let change = enter_change(seen, count, total, entered);
    let end = put_entered(out, at, change.answer);
    Called {
        change,
        counts: LaneCounts {
            active: counts.active + 1,
            gathered: counts.gathered + 1,
            total,
        },
        end,
        next,
        refused: is_refusal(change.answer),
        starts: is_complete(entered),
    }
}
