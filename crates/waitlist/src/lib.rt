// The waitlist: whether another lane has its flag up, and which lane a release wakes.
#![tactic(auto)]

ghost use Rattle.std.specs.Prelude.{◌≡◌, eqb, set};
ghost use Rattle.lists.specs.Lists.{all_pass};
ghost use Rattle.waitlist.specs.NextLane.{next_lane};

use limits::MOST_LANES;

mod words;

// Whether all flags of a row but one are 0.
#[tactic(auto, using(lists::proofs::Loops::all_end, lists::proofs::Loops::all_stop, lists::proofs::Loops::all_more))]
fn down_but(flags: &[u8], own: usize) -> bool
    ensures { result ≡ all_pass (eqb 0) (set flags.now own 0) }
{
    for (i, &flag) in flags.iter().enumerate() {
        if i != own && flag != 0 {
            return false;
        }
    }
    true
}

// Whether all flags but the lane's own are 0.
pub fn others_down(flags: &[u8; MOST_LANES], lane: u8) -> bool
    ensures { result ≡ all_pass (eqb 0) (set flags.now lane 0) }
{
    down_but(flags, usize::from(lane))
}

// The next lane once the releaser's flag is down: the first flagged one after the releaser, upwards, then from 0 up to it.
// The releaser's own flag does not count, so that it does not matter whether it is down yet: no search comes to it.
pub fn next_lane(lanes: u8, flags: &[u8; MOST_LANES], releaser: u8) -> Option<u8>
    ensures { result ≡ next_lane lanes (set flags.now releaser 0) releaser }
{
    let own = usize::from(releaser);
    let end = usize::from(lanes).min(MOST_LANES);
    let lane = words::first_raised(flags, own + 1, end, own.min(end));
    if lane < MOST_LANES {
        Some(lane as u8)
    } else {
        None
    }
}
