// The rules of a single lane that go by the line: the value of a woken or holding lane, and the region of a busy one.
ghost use Rattle.std.specs.Prelude.{◌+◌, ◌≡◌};
ghost use Rattle.line.specs.Sound.{region_end, region_ok, value_ok};

use line::{Line, Phase};
use view::Place;

// The place that follows the last one of a region. The number is wide enough for an end past any place.
fn region_end(x: Phase) -> u64
    ensures { result ≡ region_end x }
{
    u64::from(phase_tests::place_in(x).0) + u64::from(phase_tests::left_in(x))
}

// The value of a woken or holding lane is the pointer.
pub fn value_ok(pointer: Place, x: Phase) -> bool
    ensures { result ≡ value_ok pointer x }
{
    !phase_tests::has_turn(x) || phase_tests::place_in(x) == pointer
}

// "Busy lanes have a record left and regions that end at or below the pointer ..; a writer's records fit".
pub fn region_ok(line: &Line, x: Phase) -> bool
    ensures { result ≡ region_ok line.now x }
{
    let left = phase_tests::left_in(x);
    !phase_tests::is_busy(x)
        || 1 <= left
            && region_end(x) <= u64::from(line.pointer.0)
            && (!phase_tests::is_writing(x)
                || line
                    .view
                    .fits(line.capacity, phase_tests::place_in(x), u32::from(left)))
}
