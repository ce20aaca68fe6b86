// Columns of a line: blanks after a text, up to a width.
ghost use Rattle.std.specs.Prelude.{◌+◌, ◌-◌, ◌≤◌, ◌<◌, ◌≡◌, length, replicate};
ghost use Rattle.number_text.specs.Stored.{Stored};

use column_text::put_blanks;

// Where a column ends: at its width, or where its text ends if that is further, and two blanks later.
fn column_end(start: usize, last: usize, width: usize) -> usize
    requires { (start ≤ last) × (last + width + 2 ≤ 18446744073709551615) }
    ensures { result ≡ last + (width - (last - start) + 2) }
{
    last.max(start + width) + 2
}

// Ends the column that begins at `start`: blanks in place of the line end before `end`, up to the width, and two more.
pub fn end_column(out: &mut [u8], start: usize, end: usize, width: usize) -> usize
    requires { (start < end) × (end + width + 2 ≤ length out.old) }
    ensures { Stored (replicate (width - (end - 1 - start) + 2) 32) out.old (end - 1) out.new result × (result ≤ end + width + 1) }
{
    let last = end - 1;
    put_blanks(out, last, column_end(start, last, width))
}
