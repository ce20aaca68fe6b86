// The report of waiting as a table, stored in a lent buffer: a header, a line for each lane that has any wait, and a line for all lanes.
#![tactic(auto)]

ghost use Rattle.std.specs.Prelude.{◌+◌, ◌-◌, ◌≤◌, ◌<◌, [], ◌∷◌, ◌++◌, map, ◌≡◌, length};
ghost use Rattle.number_text.specs.Stored.{Stored};
ghost use Rattle.printout.specs.Text.{ascii};
ghost use Rattle.printout.specs.Print.{decimal, words};
ghost use Rattle.report_text.specs.Table.{cell, has_wait, header, wait_line, wait_lines, numbers_of, row_line, table};
ghost use Rattle.report_text.specs.Printing.{TableMeets, most_cell, most_wait_lines, most_numbers, most_table, most_table_line};

use answer_text::TooShort;
use column_text::put_blanks;
use limits::MOST_LANES;
use report::{Report, Row, mean, remainder};
use word_text::{BLANK, LINE_END, put_number, put_word};

// The least width of the first column, and of the others.
const FIRST_WIDTH: usize = 4;

const WIDTH: usize = 9;

// The longest line: seven cells of 20 digits, and a byte after each.
const MOST_TABLE_LINE: usize = 147;

// The longest table: a line for each lane, the header and the line for all lanes.
pub const MOST_TABLE: usize = (MOST_LANES + 2) * MOST_TABLE_LINE;

// How many decimal digits a number has.
fn digits(n: u64) -> usize
    ensures { result ≡ length (decimal n) }
{
    match n.checked_ilog10() {
        Some(power) => power as usize + 1,
        None => 1,
    }
}

// Where a text of this length starts, so that it ends at the width; a longer one starts at once.
fn text_start(at: usize, width: usize, length: usize) -> usize
    requires { at + width ≤ 18446744073709551615 }
    ensures { result ≡ at + (width - length) }
{
    at + width.saturating_sub(length)
}

// A number as a cell, and the byte after it.
fn put_cell(out: &mut [u8], at: usize, width: usize, n: u64, after: u8) -> usize
    requires { (width < most_cell) × (at + most_cell ≤ length out.old) }
    ensures { Stored (cell width (decimal n) ++ after ∷ []) out.old at out.new result × (result ≤ at + most_cell) }
{
    let start = text_start(at, width, digits(n));
    let next = put_blanks(out, at, start);
    put_number(out, next, n, after)
}

// The numbers of a row as cells, to the line's end.
fn put_numbers(out: &mut [u8], at: usize, row: Row) -> usize
    requires { at + most_numbers ≤ length out.old }
    ensures { Stored (words (map (cell 9) (map decimal (numbers_of row)))) out.old at out.new result × (result ≤ at + most_numbers) }
{
    let mean = mean(row.times, row.sum);
    let remainder = remainder(row.times, row.sum);
    let to_sum = put_cell(out, at, WIDTH, row.times, BLANK);
    let to_largest = put_cell(out, to_sum, WIDTH, row.sum, BLANK);
    let to_mean = put_cell(out, to_largest, WIDTH, row.largest, BLANK);
    let to_remainder = put_cell(out, to_mean, WIDTH, mean, BLANK);
    let to_unended = put_cell(out, to_remainder, WIDTH, remainder, BLANK);
    put_cell(out, to_unended, WIDTH, row.unended, LINE_END)
}

// Whether a row has any wait, ended or not.
fn has_wait(row: Row) -> bool
    ensures { result ≡ has_wait row }
{
    0 < row.times || 0 < row.unended
}

// The line of a lane; of one without any wait nothing.
fn put_lane(out: &mut [u8], at: usize, lane: u64, row: Row) -> usize
    requires { at + most_table_line ≤ length out.old }
    ensures { Stored (wait_line lane row) out.old at out.new result × (result ≤ at + most_table_line) }
{
    if has_wait(row) {
        let next = put_cell(out, at, FIRST_WIDTH, lane, BLANK);
        put_numbers(out, next, row)
    } else {
        at
    }
}

// The lines of the lanes.
fn put_lanes(out: &mut [u8], at: usize, lanes: [Row; MOST_LANES]) -> usize
    requires { at + most_wait_lines ≤ length out.old }
    ensures { Stored (wait_lines 0 lanes) out.old at out.new result × (result ≤ at + most_wait_lines) }
{
    let mut end = at;
    for (lane, row) in lanes.iter().enumerate() {
        end = put_lane(out, end, lane as u64, *row);
    }
    end
}

// The header.
fn put_header(out: &mut [u8], at: usize) -> usize
    requires { at + most_table_line ≤ length out.old }
    ensures { Stored header out.old at out.new result × (result ≤ at + most_table_line) }
{
    put_word(
        out,
        at,
        b"lane     times       sum   largest      mean remainder   unended",
        LINE_END,
    )
}

// The line for all lanes.
fn put_all(out: &mut [u8], at: usize, row: Row) -> usize
    requires { at + most_table_line ≤ length out.old }
    ensures { Stored (row_line (ascii "all") row) out.old at out.new result × (result ≤ at + most_table_line) }
{
    let next = put_word(out, at, b" all", BLANK);
    put_numbers(out, next, row)
}

// The table from an index on; the index after it.
pub fn put_table(report: Report, out: &mut [u8], at: usize) -> usize
    requires { at + most_table ≤ length out.old }
    ensures { Stored (table report) out.old at out.new result × (result ≤ at + most_table) }
{
    let to_lanes = put_header(out, at);
    let to_all = put_lanes(out, to_lanes, report.lane);
    put_all(out, to_all, report.all)
}

// The table at the start of a lent buffer and its length, or TooShort and the buffer as it was.
pub fn print_table(report: Report, out: &mut [u8]) -> Result<usize, TooShort>
    ensures { TableMeets report out.old result out.new }
{
    if out.len() < MOST_TABLE {
        Err(TooShort)
    } else {
        Ok(put_table(report, out, 0))
    }
}
