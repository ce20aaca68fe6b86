// The end of a trace: the size and the pointer, the lanes that are not idle, and how many events were accepted and refused.
ghost use Rattle.std.specs.Prelude.{◌+◌, ◌*◌, ◌≤◌, get_or, length};
ghost use Rattle.number_text.specs.Stored.{Stored};
ghost use Rattle.event_text.specs.Reasons.{last_reason};
ghost use Rattle.trace_text.specs.Trace.{accepted_line, end_text, refused_line, refused_lines};
ghost use Rattle.trace_text.specs.Steps.{count_in, most_end};

use crate::answers::put_refusal;
use crate::lanes::put_lanes;
use crate::{COUNTS, Tracing};
use event_text::{LAST_REASON, number, word};
use word_text::{BLANK, LINE_END};

// How many were accepted.
fn put_accepted(out: &mut [u8], at: usize, count: u64) -> usize
    requires { at + 32 ≤ length out.old }
    ensures { Stored (accepted_line count) out.old at out.new result × (result ≤ at + 32) }
{
    let next = number(out, at, count, BLANK);
    word(out, next, b"accepted", LINE_END)
}

// How many were refused with a number; where there are none, nothing.
fn put_refused(out: &mut [u8], at: usize, refusal: u8, count: u64) -> usize
    requires { at + 96 ≤ length out.old }
    ensures { Stored (refused_line refusal count) out.old at out.new result × (result ≤ at + 96) }
{
    if count == 0 {
        return at;
    }
    let next = number(out, at, count, BLANK);
    put_refusal(out, next, refusal)
}

// The refusals by number.
#[tactic(auto, using(crate::proofs::Texts::none_yet))]
fn put_all_refused(out: &mut [u8], at: usize, counts: [u64; COUNTS]) -> usize
    requires { at + last_reason * 96 ≤ length out.old }
    ensures { Stored (refused_lines (λ k. get_or counts k 0)) out.old at out.new result × (result ≤ at + last_reason * 96) }
{
    let mut end = at;
    for refusal in 1..=LAST_REASON {
        end = put_refused(out, end, refusal, counts[usize::from(refusal)]);
    }
    end
}

// What the run left, the lanes that are not idle, and the counts.
pub fn put_end(out: &mut [u8], tracing: Tracing) -> usize
    requires { most_end ≤ length out.old }
    ensures { Stored (end_text tracing.line (count_in tracing)) out.old 0 out.new result × (result ≤ length out.old) }
{
    let line = tracing.line;
    let to_size = word(out, 0, b"end size", BLANK);
    let to_word = number(out, to_size, u64::from(line.size), BLANK);
    let to_place = word(out, to_word, b"pointer", BLANK);
    let next = number(out, to_place, u64::from(line.pointer.0), LINE_END);
    let to_counts = put_lanes(out, next, line);
    let refused = put_accepted(out, to_counts, tracing.counts[0]);
    put_all_refused(out, refused, tracing.counts)
}
