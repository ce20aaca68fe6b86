// The flags as two words of 64 bits, gathered 16 flags at a time, and the first flagged lane by the count of a word's trailing zeros.
ghost use Rattle.std.specs.Prelude.{◌+◌, ◌-◌, ◌*◌, ◌%◌, ◌≤◌, ◌<◌, ◌≡◌};
ghost use Rattle.std.specs.Int.Count.{count_trailing_zeros};
ghost use Rattle.limits.specs.Limits.{most_lanes};
ghost use Rattle.waitlist.specs.NextLane.{first_raised, or_else};
ghost use Rattle.waitlist.specs.Words.{lane_or, word};

use limits::MOST_LANES;

// The word of lane i's flag alone: a flag is up where it is 1 and no other number.
#[tactic(auto, unfolding(crate::specs::Words::word))]
fn word_1(flags: &[u8; MOST_LANES], i: usize) -> u32
    requires { i + 1 ≤ most_lanes }
    ensures { result ≡ word flags.now i 1 }
{
    u32::from(flags[i] == 1)
}

// The words of 2, 4, 8 and 16 flags from lane i upwards, each put together from two halves, the higher one first: of this form the compiler makes three
// instructions for 16 flags, of a loop over them some two dozen; so these are four functions and not one.
fn word_2(flags: &[u8; MOST_LANES], i: usize) -> u32
    requires { i + 2 ≤ most_lanes }
    ensures { result ≡ word flags.now i 2 }
{
    word_1(flags, i + 1) * 2 + word_1(flags, i)
}

fn word_4(flags: &[u8; MOST_LANES], i: usize) -> u32
    requires { i + 4 ≤ most_lanes }
    ensures { result ≡ word flags.now i 4 }
{
    word_2(flags, i + 2) * 4 + word_2(flags, i)
}

fn word_8(flags: &[u8; MOST_LANES], i: usize) -> u32
    requires { i + 8 ≤ most_lanes }
    ensures { result ≡ word flags.now i 8 }
{
    word_4(flags, i + 4) * 16 + word_4(flags, i)
}

fn word_16(flags: &[u8; MOST_LANES], i: usize) -> u32
    requires { i + 16 ≤ most_lanes }
    ensures { result ≡ word flags.now i 16 }
{
    word_8(flags, i + 8) * 256 + word_8(flags, i)
}

// The word of `sixteens` times 16 flags from lane `first` upwards.
fn gather(flags: &[u8; MOST_LANES], first: usize, sixteens: usize) -> u64
    requires in_word { sixteens ≤ 4 }
    requires in_row { first + 16 * sixteens ≤ most_lanes }
    ensures { result ≡ word flags.now first (16 * sixteens) }
{
    let mut gathered = 0;
    for i in 0..sixteens {
        gathered += u64::from(word_16(flags, first + 16 * i)) << (16 * i);
    }
    gathered
}

// The first flagged lane from `start` to the end of its word, which has lanes 0 to 63 or 64 to 127; `start` plus 64 where none is, as 0 has 64 trailing zeros.
// What is gathered begins at a multiple of 16; the shift leaves out the lanes below `start`.
fn first_in_word(flags: &[u8; MOST_LANES], start: usize) -> usize
    requires { start < most_lanes }
    ensures { result ≡ start + count_trailing_zeros 64 (word flags.now start (64 - start % 64)) }
{
    let gathered = gather(flags, start / 16 * 16, 4 - start % 64 / 16);
    start + (gathered >> (start % 16)).trailing_zeros() as usize
}

// The first flagged lane from `start` up to, and not including, `end`; where none is, the first from 0 up to `rest`; MOST_LANES where none is there either.
// It calls itself for the next word, of which the compiler makes a loop: a word is gathered only where the one before it has no flag. Of one that answers an Option
// the compiler makes no loop, and it then stands by itself, which tests/inlined refuses.
pub fn first_raised(flags: &[u8; MOST_LANES], start: usize, end: usize, rest: usize) -> usize
    requires end_in_row { end ≤ most_lanes }
    requires rest_in_row { rest ≤ most_lanes }
    ensures { result ≡ lane_or most_lanes (or_else (first_raised flags.now start (end - start)) (first_raised flags.now 0 rest)) }
{
    if end <= start {
        if rest == 0 {
            return MOST_LANES;
        }
        return first_raised(flags, 0, rest, 0);
    }
    let last = end.min(start / 64 * 64 + 64);
    let lane = first_in_word(flags, start);
    if lane < last {
        return lane;
    }
    first_raised(flags, last, end, rest)
}
