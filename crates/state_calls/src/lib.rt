// One call over the state bytes of a line, and what is asked of them; none of the public functions requires anything.
#![tactic(auto)]

ghost use Rattle.std.specs.Prelude.{◌≡◌, ◌≤◌, cond, length};
ghost use Rattle.std.proofs.lemmas.List.Edits.{sets};
ghost use Rattle.state_bytes.specs.StateBytes.{state_bytes, state_length};
ghost use Rattle.answer_bytes.specs.AnswerBytes.{answer_bytes, answer_length};
ghost use Rattle.steps.specs.Answer.{said_by};
ghost use Rattle.state_calls.specs.StateCalls.{CallMeets, call_state, status_of, unopened_status, unopened_to};

use answer_bytes::{ANSWER_LENGTH, put_answer};
use event::Refusal;
use event_calls::call_bytes;
use line::Line;
use state_bytes::{STATE_LENGTH, is_state, line_in, put_state};
use steps::{Answer, Outcome};

pub mod told;

// The buffer that is too short for a call, as the C interface numbers it beside the refusals.
#[derive(Clone, Copy, Debug, PartialEq, Eq)]
pub enum ShortBuffer {
    State = 254,
    Answer = 255,
}

// Stores the answer of a call and, where it is accepted, the line after it; 0, or the number of the refusal.
fn store(outcome: Outcome, state: &mut [u8], answer: &mut [u8]) -> u8
    requires { (state_length ≤ length state.old) × (answer_length ≤ length answer.old) }
    ensures status { result ≡ status_of outcome.answer }
    ensures line { state.new ≡ cond (said_by outcome.answer).accepted (sets state.old 0 (state_bytes outcome.line)) state.old }
    ensures told { answer.new ≡ sets answer.old 0 (answer_bytes outcome.answer) }
{
    put_answer(answer, outcome.answer);
    if let Answer::Refused { number } = outcome.answer {
        return number;
    }
    put_state(state, outcome.line);
    0
}

// Makes one call on the line in the state bytes, over its book; the answer goes to the start of its buffer.
#[tactic(auto, unfolding(crate::specs::StateCalls::call_state))]
pub fn call_state(state: &mut [u8], book: &mut [u8], kind: u8, body: &[u8], answer: &mut [u8]) -> u8
    ensures { CallMeets (call_state state.old book.old kind body.now answer.old) result state.new book.new answer.new }
{
    if state.len() < STATE_LENGTH {
        return ShortBuffer::State as u8;
    }
    if answer.len() < ANSWER_LENGTH {
        return ShortBuffer::Answer as u8;
    }
    if !is_state(state) {
        let number = Refusal::NotSound.number();
        put_answer(answer, Answer::Refused { number });
        return number;
    }
    let outcome = call_bytes(line_in(state), book, kind, body);
    store(outcome, state, answer)
}

// Stores the state of a line that is not yet open; a buffer that is too short is left as it was.
pub fn put_unopened(state: &mut [u8]) -> u8
    ensures { (result ≡ unopened_status state.old) × (state.new ≡ unopened_to state.old) }
{
    if state.len() < STATE_LENGTH {
        return ShortBuffer::State as u8;
    }
    put_state(state, Line::unopened());
    0
}
