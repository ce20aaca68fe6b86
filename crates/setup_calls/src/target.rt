// The place that a seek asks for: a signed offset added to a base, exact over the integers.
ghost use Rattle.std.specs.Prelude.{◌≡◌, ◌<◌, pos, ◌+ℤ◌};
ghost use Rattle.std.specs.Result.{MatchResult};
ghost use Rattle.event.specs.declared.Refusal.{Refusal};
ghost use Rattle.view.specs.View.{end_of_book};
ghost use Rattle.setup_calls.specs.Setup.{base_of, sought_at, target_of};
ghost use Rattle.setup_calls.specs.Whence.{whence_number};

use event::Refusal;
use limits::MOST_POINTER;
use view::{Place, View};

// What a seek's offset is added to.
#[derive(Clone, Copy, Debug, PartialEq, Eq)]
pub enum Whence {
    PlaceZero,
    Pointer,
    EndOfBook,
}

impl TryFrom<u8> for Whence {
    type Error = Refusal;

    ghost try_from_gives = { λ number r. MatchResult r (λ whence. number ≡ whence_number whence) (λ reason. (2 < number) × (reason ≡ Refusal.AboveTwo)) };

    fn try_from(number: u8) -> Result<Whence, Refusal> {
        match number {
            0 => Ok(Whence::PlaceZero),
            1 => Ok(Whence::Pointer),
            2 => Ok(Whence::EndOfBook),
            _ => Err(Refusal::AboveTwo),
        }
    }
}

// The end of the book is that in the view.
pub fn base(size: u32, pointer: Place, view: View, whence: Whence) -> Place
    ensures { result ≡ base_of (whence_number whence) pointer (end_of_book view size) }
{
    match whence {
        Whence::PlaceZero => Place(0),
        Whence::Pointer => pointer,
        Whence::EndOfBook => view.end_of_book(size),
    }
}

// A place moved by a signed offset, where it stays in the pointer's range.
pub fn moved_by(base: Place, offset: i32) -> Option<Place>
    ensures { result ≡ sought_at (pos base.0 +ℤ offset) }
{
    let sum = i64::from(base.0) + i64::from(offset);
    if sum < 0 || i64::from(MOST_POINTER) < sum {
        return None;
    }
    Some(Place(sum as u32))
}

// Where a seek goes from the numbers of a line.
pub fn seek_to(size: u32, pointer: Place, view: View, whence: Whence, offset: i32) -> Option<Place>
    ensures { result ≡ sought_at (target_of size pointer view (whence_number whence) offset) }
{
    moved_by(base(size, pointer, view, whence), offset)
}
