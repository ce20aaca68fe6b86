// What a run counts of waiting, in lent numbers: an answer counted, and at the run's end all counts joined to a report.
#![tactic(auto)]

ghost use Rattle.std.specs.Prelude.{◌+◌, ◌≤◌, ◌<◌, ◌≡◌};
ghost use Rattle.limits.specs.Limits.{most_lanes, most_sheet};
ghost use Rattle.report.specs.Rows.{joined};
ghost use Rattle.wait_counts.specs.Counts.{Countable, Growable, Joinable, Consistent, closed_row, counted, ended, grown_to, released, releases_in, told};

use changes::entry_of;
use limits::MOST_LANES;
use report::{Report, Row};
use steps::Answer;

// Four numbers for each lane, and then the releases.
pub const COUNTS: usize = 4 * MOST_LANES + 1;

// Where the number of releases stands.
const RELEASES: usize = 4 * MOST_LANES;

// A lane is told to wait: its mark is one more than the releases before.
fn tell(counts: &mut [u64], lane: usize)
    requires { Countable counts.old × (lane < most_lanes) }
    ensures { counts.new ≡ told counts.old lane }
{
    counts[4 * lane] = counts[RELEASES] + 1;
}

// The wait of a lane ends with the last release, if it is marked.
fn end_wait(counts: &mut [u64], lane: usize)
    requires { Consistent counts.old × (releases_in counts.old ≤ most_sheet) × (lane < most_lanes) }
    ensures { counts.new ≡ ended counts.old lane }
{
    let at = 4 * lane;
    let mark = counts[at];
    if mark == 0 {
        return;
    }
    let releases = counts[RELEASES] + 1 - mark;
    let times = counts[at + 1];
    let sum = counts[at + 2];
    let largest = counts[at + 3];
    counts[at] = 0;
    counts[at + 1] = times + 1;
    counts[at + 2] = sum + releases;
    counts[at + 3] = largest.max(releases);
}

// An accepted release, with the lane that it wakes.
fn release(counts: &mut [u64], wakes: Option<u8>)
    requires { Countable counts.old }
    ensures { counts.new ≡ released counts.old wakes }
{
    counts[RELEASES] += 1;
    if let Some(woken) = wakes {
        end_wait(counts, entry_of(woken));
    }
}

// The answer to a call of this lane.
pub fn count_answer(counts: &mut [u64], lane: usize, answer: Answer)
    requires { Countable counts.old × (lane < most_lanes) }
    ensures { counts.new ≡ counted counts.old lane answer }
{
    match answer {
        Answer::Waits => tell(counts, lane),
        Answer::Region { wakes, .. } | Answer::Freed { wakes } => release(counts, wakes),
        _ => {}
    }
}

// A row with the waits of a lane joined to it.
fn join_waits(row: Row, counts: &[u64], lane: usize) -> Row
    requires { Joinable row counts.now lane }
    ensures { result ≡ joined row (closed_row counts.now lane) }
{
    let at = 4 * lane;
    Row {
        times: row.times + counts[at + 1],
        sum: row.sum + counts[at + 2],
        largest: row.largest.max(counts[at + 3]),
        unended: row.unended + u64::from(counts[at] != 0),
    }
}

// A report with all that a run has counted joined to it, when the run has ended.
#[tactic(auto, using(crate::proofs::Growing::grown_none, crate::proofs::Growing::grown_more, crate::proofs::Growing::joins_lane))]
pub fn grow(report: Report, counts: &[u64]) -> Report
    requires { Growable report counts.now }
    ensures { result ≡ grown_to most_lanes report counts.now }
{
    let mut grown = report;
    for i in 0..MOST_LANES {
        grown.lane[i] = join_waits(grown.lane[i], counts, i);
        grown.all = join_waits(grown.all, counts, i);
    }
    grown
}
