// The numbers of a sound line: N, the capacity, the size, the pointer and the view.
ghost use Rattle.std.specs.Prelude.{◌≡◌};
ghost use Rattle.view.specs.View.{is_plain};
ghost use Rattle.line.specs.Sound.{numbers_ok, open_numbers, unopened_numbers};

use limits::{LEAST_CAPACITY, MOST_CAPACITY, MOST_LANES, MOST_POINTER};
use line::Line;
use view::{Place, View};

// Whether the view is the plain one.
fn is_plain(view: View) -> bool
    ensures { result ≡ is_plain view }
{
    view == View::PLAIN
}

// "An unopened line has N, capacity, size and pointer 0, and the plain view".
fn unopened_numbers(line: Line) -> bool
    ensures { result ≡ unopened_numbers line }
{
    line.capacity == 0 && line.size == 0 && line.pointer == Place(0) && is_plain(line.view)
}

// "N, capacity, size (at most the capacity), pointer and view are in range and the buffer holds the capacity".
fn open_numbers(line: Line, buffer: usize) -> bool
    ensures { result ≡ open_numbers line buffer }
{
    usize::from(line.lanes) <= MOST_LANES
        && LEAST_CAPACITY <= line.capacity
        && line.capacity <= MOST_CAPACITY
        && line.size <= line.capacity
        && line.pointer.0 <= MOST_POINTER
        && line.view.is_ok(line.capacity)
        && line.capacity as usize <= buffer
}

// The numbers of an unopened line, and of one that is open.
pub fn numbers_ok(line: Line, buffer: usize) -> bool
    ensures { result ≡ numbers_ok line buffer }
{
    if line.lanes == 0 {
        unopened_numbers(line)
    } else {
        open_numbers(line, buffer)
    }
}
