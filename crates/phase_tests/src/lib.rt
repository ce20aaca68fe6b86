// Tests and numbers of a lane's phase, each equal to its definition.
#![tactic(auto)]

ghost use Rattle.std.specs.Prelude.{◌≡◌};
ghost use Rattle.line.specs.Line.{count_in, flag_for, has_turn, holds_whole, is_busy, is_gathered, is_idle, is_idle_or_gathered, is_writing, left_in, place_in};

use line::{Phase, Purpose};
use view::Place;

// Whether the lane is idle.
pub fn is_idle(x: Phase) -> bool
    ensures { result ≡ is_idle x }
{
    matches!(x, Phase::Idle)
}

// Whether the lane is writing a region.
pub fn is_writing(x: Phase) -> bool
    ensures { result ≡ is_writing x }
{
    matches!(x, Phase::BusyWriting { .. })
}

// Whether the lane has entered an ordered call.
pub fn is_gathered(x: Phase) -> bool
    ensures { result ≡ is_gathered x }
{
    matches!(x, Phase::Gathered(_))
}

// Whether the lane is idle or gathered.
pub fn is_idle_or_gathered(x: Phase) -> bool
    ensures { result ≡ is_idle_or_gathered x }
{
    matches!(x, Phase::Idle | Phase::Gathered(_))
}

// Whether the lane is woken or holding.
pub fn has_turn(x: Phase) -> bool
    ensures { result ≡ has_turn x }
{
    matches!(x, Phase::Woken(..) | Phase::Holding(..))
}

// Whether the lane is writing or reading a region.
pub fn is_busy(x: Phase) -> bool
    ensures { result ≡ is_busy x }
{
    matches!(x, Phase::BusyWriting { .. } | Phase::BusyReading { .. })
}

// The flag that goes with a phase.
pub fn flag_for(x: Phase) -> u8
    ensures { result ≡ flag_for x }
{
    u8::from(matches!(x, Phase::Waiting(_) | Phase::Woken(..) | Phase::Holding(..)))
}

// Whether the lane holds the whole book.
pub fn holds_whole(x: Phase) -> bool
    ensures { result ≡ holds_whole x }
{
    matches!(x, Phase::Holding(Purpose::WholeBook, _))
}

// The place that a phase carries: the value of a woken or holding lane, the next place of a busy one.
pub fn place_in(x: Phase) -> Place
    ensures { result ≡ place_in x }
{
    match x {
        Phase::Woken(_, place) | Phase::Holding(_, place) => place,
        Phase::BusyWriting { next, .. } | Phase::BusyReading { next, .. } => next,
        Phase::Idle | Phase::Waiting(_) | Phase::Gathered(_) => Place(0),
    }
}

// The records that a busy lane has left.
pub fn left_in(x: Phase) -> u16
    ensures { result ≡ left_in x }
{
    match x {
        Phase::BusyWriting { left, .. } | Phase::BusyReading { left, .. } => left,
        _ => 0,
    }
}

// The count with which a gathered lane entered.
pub fn count_in(x: Phase) -> u16
    ensures { result ≡ count_in x }
{
    match x {
        Phase::Gathered(count) => count,
        _ => 0,
    }
}
