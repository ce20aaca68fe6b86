// What `linebook` prints of a sheet: the lines of its run from an unopened line, or that it is too long.
#![tactic(auto)]

ghost use Rattle.std.specs.Prelude.{◌≡◌};
ghost use Rattle.linebook_text.specs.Whole.{SheetMeets, TooLongMeets, is_too_long};

use answer_text::TooShort;
use limits::MOST_SHEET;
use line::Line;
use report::Report;
use run::run_reported;
use word_text::{LINE_END, put_word};

// One line, for a sheet that is too long.
fn print_too_long(out: &mut [u8]) -> Result<usize, TooShort>
    ensures { TooLongMeets out.old result out.new }
{
    if out.len() < 15 {
        Err(TooShort)
    } else {
        Ok(put_word(out, 0, b"sheet too long", LINE_END))
    }
}

// Whether a sheet is longer than the longest.
fn is_too_long(sheet: &[u8]) -> bool
    ensures { result ≡ is_too_long sheet.now }
{
    MOST_SHEET < sheet.len()
}

// Runs a sheet from an unopened line over a lent book; the text stands at the start of `out`.
pub fn print_sheet(sheet: &[u8], book: &mut [u8], out: &mut [u8]) -> Result<usize, TooShort>
    ensures { SheetMeets book.old sheet.now out.old result book.new out.new }
{
    if is_too_long(sheet) {
        return print_too_long(out);
    }
    let line = Line::unopened();
    let ran = run_reported(line, book, sheet, out, Report::empty());
    ran.printed
}
