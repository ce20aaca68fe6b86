// Tests and counts over all lanes: the flags, and how many lanes are in which phase.
ghost use Rattle.std.specs.Prelude.{◌≡◌, map};
ghost use Rattle.lists.specs.Lists.{all_pass, some_pass, same_numbers};
ghost use Rattle.line.specs.Line.{flag_for, is_gathered, is_idle, on};
ghost use Rattle.lane_tests.specs.Rules.{counts_of, tally_of};

use limits::MOST_LANES;
use line::Lane;

// How many lanes are flagged, how many have the turn, how many are gathered, and the gathered total.
#[derive(Clone, Copy, Debug, PartialEq, Eq)]
pub struct Tally {
    pub flagged: usize,
    pub turns: usize,
    pub gathered: usize,
    pub total: u32,
}

// What decides an enter: how many lanes are not idle, how many are gathered, and the records that these have in all.
#[derive(Clone, Copy, Debug, PartialEq, Eq)]
pub struct LaneCounts {
    pub active: u32,
    pub gathered: u32,
    pub total: u32,
}

// Counts all lanes in one pass.
#[tactic(auto, using(lists::proofs::Loops::count_end, lists::proofs::Loops::count_more, lists::proofs::Loops::sum_end, lists::proofs::Loops::sum_more))]
pub fn tally_of(lane: [Lane; MOST_LANES]) -> Tally
    ensures { result ≡ tally_of lane }
{
    let mut flagged = 0;
    let mut turns = 0;
    let mut gathered = 0;
    let mut total = 0;
    for l in &lane {
        flagged += usize::from(phase_tests::flag_for(l.phase));
        turns += usize::from(phase_tests::has_turn(l.phase));
        gathered += usize::from(phase_tests::is_gathered(l.phase));
        total += u32::from(phase_tests::count_in(l.phase));
    }
    Tally {
        flagged,
        turns,
        gathered,
        total,
    }
}

// Counts the lanes that are not idle, the gathered ones and their records, in one pass.
#[tactic(auto, using(lists::proofs::Loops::count_end, lists::proofs::Loops::count_more, lists::proofs::Loops::sum_end, lists::proofs::Loops::sum_more))]
pub fn counts_of(lane: [Lane; MOST_LANES]) -> LaneCounts
    ensures { result ≡ counts_of lane }
{
    let mut active = 0;
    let mut gathered = 0;
    let mut total = 0;
    for l in &lane {
        active += u32::from(!phase_tests::is_idle(l.phase));
        gathered += u32::from(phase_tests::is_gathered(l.phase));
        total += u32::from(phase_tests::count_in(l.phase));
    }
    LaneCounts {
        active,
        gathered,
        total,
    }
}

// Whether all lanes are idle.
pub fn all_idle(lane: [Lane; MOST_LANES]) -> bool
    ensures { result ≡ all_pass (on is_idle) lane }
{
    lane.iter().all(|l| phase_tests::is_idle(l.phase))
}

// Whether a lane has entered an ordered call.
pub fn any_gathered(lane: [Lane; MOST_LANES]) -> bool
    ensures { result ≡ some_pass (on is_gathered) lane }
{
    lane.iter().any(|l| phase_tests::is_gathered(l.phase))
}

// "A flag is 1 for waiting, woken and holding lanes and no others".
#[tactic(auto, using(crate::proofs::Flags::flags_end, crate::proofs::Flags::flags_more, crate::proofs::Flags::flags_stop))]
pub fn flags_ok(flag: [u8; MOST_LANES], lane: [Lane; MOST_LANES]) -> bool
    ensures { result ≡ same_numbers flag (map (on flag_for) lane) }
{
    for (i, l) in lane.iter().enumerate() {
        if flag[i] != phase_tests::flag_for(l.phase) {
            return false;
        }
    }
    true
}
