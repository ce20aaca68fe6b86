// The phases that a call leaves.
ghost use Rattle.std.specs.Prelude.{◌≡◌};
ghost use Rattle.steps.specs.Effects.{purpose_of, reading, woken, writing};

use line::{Phase, Purpose};
use view::Place;

// The purpose with this number; a number above 2 is refused before.
pub fn purpose_of(code: u8) -> Purpose
    ensures { result ≡ purpose_of code }
{
    match code {
        0 => Purpose::SharedWrite,
        1 => Purpose::SharedRead,
        _ => Purpose::WholeBook,
    }
}

// A lane that has these records to write from a place.
pub fn to_write(left: u16, next: Place) -> Phase
    ensures { result ≡ writing left next }
{
    if left == 0 {
        return Phase::Idle;
    }
    Phase::BusyWriting { left, next }
}

// A lane that has these records to read from a place.
pub fn to_read(left: u16, next: Place) -> Phase
    ensures { result ≡ reading left next }
{
    if left == 0 {
        return Phase::Idle;
    }
    Phase::BusyReading { left, next }
}

// A waiting lane woken with a pointer value; any other lane as it is.
pub fn wake_with(value: Place, phase: Phase) -> Phase
    ensures { result ≡ woken value phase }
{
    match phase {
        Phase::Waiting(purpose) => Phase::Woken(purpose, value),
        _ => phase,
    }
}
