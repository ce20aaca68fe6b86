// The lanes as a row of letters, and each that is not idle as a line.
ghost use Rattle.std.specs.Prelude.{◌+◌, ◌*◌, ◌≤◌, [], ◌∷◌, ◌≡◌, length};
ghost use Rattle.limits.specs.Limits.{most_lanes};
ghost use Rattle.number_text.specs.Stored.{Stored};
ghost use Rattle.printout.specs.Print.{words};
ghost use Rattle.trace_text.specs.TraceLine.{letter_of, row_of};
ghost use Rattle.trace_text.specs.Trace.{lane_line, lane_lines, phase_word};

use event_text::{named, word};
use limits::MOST_LANES;
use line::{Line, Phase};
use phase_tests::is_idle;
use word_text::{BLANK, LINE_END};

// The letter of a phase.
fn letter(phase: Phase) -> u8
    ensures { result ≡ letter_of phase }
{
    match phase {
        Phase::Idle => b'.',
        Phase::Waiting(_) => b'w',
        Phase::Woken(_, _) => b'!',
        Phase::Holding(_, _) => b'H',
        Phase::BusyWriting { left: _, next: _ } => b'W',
        Phase::BusyReading { left: _, next: _ } => b'R',
        Phase::Gathered(_) => b'G',
    }
}

// How many letters a row has: one for each lane of the line, and no more than a line can have.
fn row_length(line: Line) -> usize
    ensures { (result ≡ length (row_of line)) × (result ≤ most_lanes) }
{
    usize::from(line.lanes).min(MOST_LANES)
}

// A letter for each lane of the line.
pub fn put_row(out: &mut [u8], at: usize, line: Line) -> usize
    requires { at + most_lanes ≤ length out.old }
    ensures { Stored (row_of line) out.old at out.new result × (result ≤ at + most_lanes) }
{
    let count = row_length(line);
    for i in 0..count {
        out[at + i] = letter(line.lane[i].phase);
    }
    at + count
}

// The word of a phase, and the line end.
#[tactic(auto, unfolding(printout::specs::Print::words))]
fn put_phase(out: &mut [u8], at: usize, phase: Phase) -> usize
    requires { at + 9 ≤ length out.old }
    ensures { Stored (words (phase_word phase ∷ [])) out.old at out.new result × (result ≤ at + 9) }
{
    match phase {
        Phase::Idle => word(out, at, b"idle", LINE_END),
        Phase::Waiting(_) => word(out, at, b"waiting", LINE_END),
        Phase::Woken(_, _) => word(out, at, b"woken", LINE_END),
        Phase::Holding(_, _) => word(out, at, b"holding", LINE_END),
        Phase::BusyWriting { left: _, next: _ } => word(out, at, b"writing", LINE_END),
        Phase::BusyReading { left: _, next: _ } => word(out, at, b"reading", LINE_END),
        Phase::Gathered(_) => word(out, at, b"gathered", LINE_END),
    }
}

// The line of a lane; of one that is idle nothing.
fn put_lane(out: &mut [u8], at: usize, lane: u64, phase: Phase) -> usize
    requires { at + 40 ≤ length out.old }
    ensures { Stored (lane_line lane phase) out.old at out.new result × (result ≤ at + 40) }
{
    if is_idle(phase) {
        return at;
    }
    let next = named(out, at, b"lane", lane, BLANK);
    put_phase(out, next, phase)
}

// The lines of the lanes.
#[tactic(auto, using(crate::proofs::Texts::none_yet))]
pub fn put_lanes(out: &mut [u8], at: usize, line: Line) -> usize
    requires { at + most_lanes * 40 ≤ length out.old }
    ensures { Stored (lane_lines line) out.old at out.new result × (result ≤ at + most_lanes * 40) }
{
    let count = row_length(line);
    let mut end = at;
    for i in 0..count {
        end = put_lane(out, end, i as u64, line.lane[i].phase);
    }
    end
}
