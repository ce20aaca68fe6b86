// Whether a line is sound: the test that comes before every call.
#![tactic(auto)]

ghost use Rattle.std.specs.Prelude.{◌≤◌, ◌≡◌, true, drop};
ghost use Rattle.limits.specs.Limits.{most_pointer};
ghost use Rattle.lists.specs.Lists.{all_pass};
ghost use Rattle.line.specs.Line.{is_idle, is_idle_or_gathered, on};
ghost use Rattle.line.specs.Sound.{busy_ok, flags_ok, gathered_ok, past_ok, region_ok, sound, turn_ok, value_ok};

use lane_tests::{regions, rules, tallies};
use line::Line;

mod numbers;

// Whether the value of each woken or holding lane is the pointer.
fn values_ok(line: &Line) -> bool
    ensures { result ≡ all_pass (on (value_ok line.now.pointer)) line.now.lane }
{
    line.lane
        .iter()
        .all(|l| rules::value_ok(line.pointer, l.phase))
}

// Whether each lane is idle or gathered.
fn all_idle_or_gathered(line: &Line) -> bool
    ensures { result ≡ all_pass (on is_idle_or_gathered) line.now.lane }
{
    line.lane
        .iter()
        .all(|l| phase_tests::is_idle_or_gathered(l.phase))
}

// Whether the region of each busy lane is as a sound line asks.
fn regions_ok(line: &Line) -> bool
    ensures { result ≡ all_pass (on (region_ok line.now)) line.now.lane }
{
    line.lane.iter().all(|l| rules::region_ok(line, l.phase))
}

// Whether each entry past N is idle.
fn past_idle(line: &Line) -> bool
    ensures { result ≡ all_pass (on is_idle) (drop line.now.lanes line.now.lane) }
{
    line.lane
        .iter()
        .skip(usize::from(line.lanes))
        .all(|l| phase_tests::is_idle(l.phase))
}

// "If a flag is 1, exactly one lane is woken or holding, and its value is the pointer"; the flags are those of the phases.
#[tactic(auto, using(crate::proofs::Laws::raised_any))]
fn turn_ok(line: Line) -> bool
    requires { flags_ok line ≡ true }
    ensures { result ≡ turn_ok line }
{
    let tally = tallies::tally_of(line.lane);
    tally.flagged == 0 || tally.turns == 1 && values_ok(&line)
}

// "If a lane is gathered, all are idle or gathered, not all gathered, and the gathered total fits".
#[tactic(auto, using(lists::proofs::Maps::any_count))]
fn gathered_ok(line: Line) -> bool
    ensures { result ≡ gathered_ok line }
{
    let tally = tallies::tally_of(line.lane);
    tally.gathered == 0
        || all_idle_or_gathered(&line)
            && tally.gathered < usize::from(line.lanes)
            && line.view.fits(line.capacity, line.pointer, tally.total)
}

// "Busy lanes have a record left and regions that end at or below the pointer and share no place; a writer's records fit".
#[tactic(auto, using(crate::proofs::Laws::regions_within))]
fn busy_ok(line: Line) -> bool
    requires { line.pointer.0 ≤ most_pointer }
    ensures { result ≡ busy_ok line }
{
    regions_ok(&line) && regions::regions_apart(line.lane)
}

// "Entries past N are idle with flag 0"; the flags are those of the phases.
#[tactic(auto, using(crate::proofs::Laws::past_idle))]
fn past_ok(line: Line) -> bool
    requires { flags_ok line ≡ true }
    ensures { result ≡ past_ok line }
{
    past_idle(&line)
}

// Whether the line, with a buffer of this length, is sound; for any numbers that the types hold.
#[tactic(auto, using(crate::proofs::Laws::pointer_low), unfolding(line::specs::Sound::sound))]
pub fn is_sound(line: Line, buffer: usize) -> bool
    ensures { result ≡ sound line buffer }
{
    numbers::numbers_ok(line, buffer)
        && tallies::flags_ok(line.flag, line.lane)
        && turn_ok(line)
        && gathered_ok(line)
        && busy_ok(line)
        && past_ok(line)
}
