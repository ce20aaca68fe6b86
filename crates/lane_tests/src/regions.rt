// Whether the regions of all lanes share no place: their places are marked lane by lane, as bits of words, and no place is marked twice.
ghost use Rattle.std.specs.Prelude.{◌+◌, ◌≤◌, ◌<◌, ◌≡◌, true, length};
ghost use Rattle.lists.specs.Lists.{all_pass, some_pass, pairwise};
ghost use Rattle.limits.specs.Limits.{most_pointer};
ghost use Rattle.line.specs.Line.{is_busy, on};
ghost use Rattle.line.specs.Sound.{apart_lanes};
ghost use Rattle.lane_tests.specs.Places.{Marks, mask_of, region_within, regions_free};

use limits::MOST_LANES;
use line::Lane;

// Words with a bit for each place below the last one that the pointer takes.
const WORDS: usize = 1024;

// The word of which `count` bits from bit `low` upwards are 1.
#[tactic(auto, using(crate::proofs::Bits::mask_shifted))]
fn mask_of(low: usize, count: usize) -> u64
    requires some_bits { 0 < count }
    requires in_word { low + count ≤ 64 }
    ensures { result ≡ mask_of low count }
{
    (u64::MAX >> (64 - count)) << low
}

// Marks `count` places from place `first` upwards, a word at a time; stops where one of them is marked.
#[tactic(auto, using(crate::proofs::Places::words_start, crate::proofs::Places::words_end, crate::proofs::Places::words_stop, crate::proofs::Places::none_marked_of))]
fn mark_places(words: &mut [u64; WORDS], first: usize, count: usize) -> bool
    requires whole { length words.old ≡ 1024 }
    requires in_range { 0 < count → first + count ≤ most_pointer }
    ensures { Marks words.old words.new first count result }
{
    if count == 0 {
        return true;
    }
    let end = first + count;
    for i in first / 64..end.div_ceil(64) {
        let from = first.max(64 * i);
        let to = end.min(64 * i + 64);
        let mask = mask_of(from % 64, to - from);
        if words[i] & mask != 0 {
            return false;
        }
        words[i] |= mask;
    }
    true
}

// Marks the regions of all lanes; stops at one of which a place is marked. A lane that is not busy has no record left.
#[tactic(auto, using(crate::proofs::Apart::region_low, crate::proofs::Apart::regions_end, crate::proofs::Apart::regions_more, crate::proofs::Apart::regions_stop, lists::proofs::Counts::all_get_d))]
fn mark_lanes(words: &mut [u64; WORDS], lane: [Lane; MOST_LANES]) -> bool
    requires whole { length words.old ≡ 1024 }
    requires regions_within { all_pass (on region_within) lane ≡ true }
    ensures { result ≡ regions_free words.old lane }
{
    for l in &lane {
        let place = phase_tests::place_in(l.phase);
        let left = phase_tests::left_in(l.phase);
        if !mark_places(words, place.0 as usize, usize::from(left)) {
            return false;
        }
    }
    true
}

// Whether a lane is busy.
fn any_busy(lane: [Lane; MOST_LANES]) -> bool
    ensures { result ≡ some_pass (on is_busy) lane }
{
    lane.iter().any(|l| phase_tests::is_busy(l.phase))
}

// ".. and share no place". Where no lane is busy no words are made.
#[tactic(auto, using(crate::proofs::Apart::none_busy))]
pub fn regions_apart(lane: [Lane; MOST_LANES]) -> bool
    requires { all_pass (on region_within) lane ≡ true }
    ensures { result ≡ pairwise apart_lanes lane }
{
    if !any_busy(lane) {
        return true;
    }
    let mut words = [0u64; WORDS];
    mark_lanes(&mut words, lane)
}
