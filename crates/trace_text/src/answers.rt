// Answers in words, refusals with their reason.
ghost use Rattle.std.specs.Prelude.{◌+◌, ◌≤◌, ◌≡◌, length};
ghost use Rattle.number_text.specs.Stored.{Stored};
ghost use Rattle.printout.specs.Print.{words};
ghost use Rattle.printout.specs.Run.{ends_run};
ghost use Rattle.trace_text.specs.TraceLine.{refusal_words, told_words};
ghost use Rattle.trace_text.specs.Trace.{refused_by};

use answer_text::put_values;
use event_text::{put_marked, put_reason, word};
use steps::Answer;
use word_text::{BLANK, LINE_END};

// The number of a refusal; none of an accepted call.
pub fn refusal_of(answer: Answer) -> Option<u8>
    ensures { result ≡ refused_by answer }
{
    match answer {
        Answer::Refused { number } => Some(number),
        _ => None,
    }
}

// Whether a run ends with this answer: 1, 2 and 3 end it.
pub fn ends_run(answer: Answer) -> bool
    ensures { result ≡ ends_run answer }
{
    matches!(answer, Answer::Refused { number } if number <= 3)
}

// A refusal with its reason, and the line end.
pub fn put_refusal(out: &mut [u8], at: usize, refusal: u8) -> usize
    requires { at + 64 ≤ length out.old }
    ensures { Stored (words (refusal_words refusal)) out.old at out.new result × (result ≤ at + 64) }
{
    let next = word(out, at, b"refused", BLANK);
    let to_reason = put_marked(out, next, u64::from(refusal), b':');
    put_reason(out, to_reason, refusal)
}

// An answer in words, and the line end.
pub fn put_told(out: &mut [u8], at: usize, answer: Answer) -> usize
    requires { at + 64 ≤ length out.old }
    ensures { Stored (words (told_words answer)) out.old at out.new result × (result ≤ at + 64) }
{
    match answer {
        Answer::Refused { number } => put_refusal(out, at, number),
        _ => put_values(out, at, answer),
    }
}
