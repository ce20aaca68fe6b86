// The report of waiting: a row of numbers for each lane that a line can have and one for all lanes, the report of no waiting, and the mean of a row.
#![tactic(auto)]

ghost use Rattle.std.specs.Prelude.{◌||◌, ◌≡◌, ltb};
ghost use Rattle.limits.specs.Limits.{most_sheet};
ghost use Rattle.lists.specs.Lists.{some_pass};
ghost use Rattle.report.specs.Lent.{is_full, is_full_row};
ghost use Rattle.report.specs.Rows.{empty_report, empty_row, mean_of, remainder_of};

use limits::{MOST_LANES, MOST_SHEET};

// 2^63, at which a number of a lent report is too large to grow.
const FULL: u64 = 9223372036854775808;

// Of the waits that ended how many, and the sum and the largest of their releases; and how many had not ended.
#[repr(C)]
#[derive(Clone, Copy, Debug, PartialEq, Eq)]
pub struct Row {
    pub times: u64,
    pub sum: u64,
    pub largest: u64,
    pub unended: u64,
}

// A row for each lane, and one for all lanes, which grows from its own values.
#[repr(C)]
#[derive(Clone, Copy, Debug, PartialEq, Eq)]
pub struct Report {
    pub lane: [Row; MOST_LANES],
    pub all: Row,
}

impl Row {
    // No wait.
    pub fn empty() -> Row
        ensures { result ≡ empty_row }
    {
        Row {
            times: 0,
            sum: 0,
            largest: 0,
            unended: 0,
        }
    }

    // Whether a number of the row is too large.
    fn is_full(self) -> bool
        ensures { result ≡ is_full_row self }
    {
        FULL <= self.times || FULL <= self.sum || FULL <= self.largest || FULL <= self.unended
    }
}

impl Report {
    // No wait of any lane.
    pub fn empty() -> Report
        ensures { result ≡ empty_report }
    {
        let row = Row::empty();
        Report {
            lane: [row; MOST_LANES],
            all: row,
        }
    }

    // Whether a number of a row is too large.
    fn is_full(self) -> bool
        ensures { result ≡ is_full self }
    {
        self.all.is_full() || any_full(&self.lane)
    }
}

// Whether a number of these rows is too large.
fn any_full(rows: &[Row]) -> bool
    ensures { result ≡ some_pass is_full_row rows.now }
{
    rows.iter().any(|row| row.is_full())
}

// The whole part of a row's mean, by its times and its sum; 0 where there is no time.
pub fn mean(times: u64, sum: u64) -> u64
    ensures { result ≡ mean_of times sum }
{
    sum.checked_div(times).unwrap_or(0)
}

// What remains of the sum; 0 where there is no time.
pub fn remainder(times: u64, sum: u64) -> u64
    ensures { result ≡ remainder_of times sum }
{
    sum.checked_rem(times).unwrap_or(0)
}

// 17: a number of the report is too large, or the sheet is too long.
pub fn cannot_count(report: Report, sheet: usize) -> bool
    ensures { result ≡ (is_full report || ltb most_sheet sheet) }
{
    report.is_full() || MOST_SHEET < sheet
}
