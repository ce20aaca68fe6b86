// The functions that C and Rust programs link to make calls one at a time, over a line in state bytes.
ghost use Rattle.std.specs.Prelude.{◌≡◌};
ghost use Rattle.lists.specs.Lists.{bit};
ghost use Rattle.answer_bytes.specs.AnswerBytes.{answer_length};
ghost use Rattle.state_bytes.specs.StateBytes.{layout, state_length};
ghost use Rattle.state_calls.specs.StateCalls.{CallMeets, call_state, unopened_status, unopened_to};
ghost use Rattle.state_calls.specs.Told.{lane_told, number_told, position_told, sound_in};
ghost use Rattle.embed.specs.AnswerText.{answer_text, answer_text_length};

use crate::length_of;
use answer_bytes::ANSWER_LENGTH;
use answer_text::print_answer;
use state_bytes::{STATE_LENGTH, head};
use state_calls::told;

// Told where there is nothing to tell: the greatest number.
const NOTHING: u64 = u64::MAX;

// Makes one call on the line in the state bytes, over its book; the answer goes to the start of its buffer.
#[unsafe(no_mangle)]
pub extern "C" fn gudlemi_call(
    state: &mut [u8],
    book: &mut [u8],
    kind: u8,
    body: &[u8],
    answer: &mut [u8],
) -> u8
    ensures { CallMeets (call_state state.old book.old kind body.now answer.old) result state.new book.new answer.new }
{
    state_calls::call_state(state, book, kind, body, answer)
}

// Stores the state of a line that is not yet open.
#[unsafe(no_mangle)]
pub extern "C" fn gudlemi_unopened(state: &mut [u8]) -> u8
    ensures { (result ≡ unopened_status state.old) × (state.new ≡ unopened_to state.old) }
{
    state_calls::put_unopened(state)
}

// 1 where the bytes are a line that is sound with a book of this length, else 0.
#[unsafe(no_mangle)]
pub extern "C" fn gudlemi_is_sound(state: &[u8], book: usize) -> u8
    ensures { result ≡ bit (sound_in state.now book) }
{
    u8::from(told::is_sound(state, book))
}

// What a lane is doing, its entry as one number; the greatest number where there is none.
#[unsafe(no_mangle)]
pub extern "C" fn gudlemi_lane(state: &[u8], lane: u8) -> u64
    ensures { result ≡ lane_told state.now lane }
{
    told::lane(state, lane).unwrap_or(NOTHING)
}

// A number of the line by its index; the greatest number where there is none.
#[unsafe(no_mangle)]
pub extern "C" fn gudlemi_number(state: &[u8], index: u8) -> u64
    ensures { result ≡ number_told state.now index }
{
    told::number(state, index).unwrap_or(NOTHING)
}

// The position of a place in the line's view; the greatest number where there is no line.
#[unsafe(no_mangle)]
pub extern "C" fn gudlemi_position(state: &[u8], place: u32) -> u64
    ensures { result ≡ position_told state.now place }
{
    told::position(state, place).unwrap_or(NOTHING)
}

// The printed line of an answer at the start of `text`, and its length; 0 where the bytes are no answer, the greatest number where `text` is too short.
#[unsafe(no_mangle)]
pub extern "C" fn gudlemi_answer_text(answer: &[u8], number: u64, text: &mut [u8]) -> usize
    ensures { (result ≡ answer_text_length answer.now number text.old) × (text.new ≡ answer_text answer.now number text.old) }
{
    if !answer_bytes::is_answer(answer) {
        return 0;
    }
    length_of(print_answer(text, number, answer_bytes::answer_in(answer)))
}

// The length of a state, that of an answer, and the number of their layout.
#[unsafe(no_mangle)]
pub extern "C" fn gudlemi_state_length() -> usize
    ensures { result ≡ state_length }
{
    STATE_LENGTH
}

#[unsafe(no_mangle)]
pub extern "C" fn gudlemi_answer_length() -> usize
    ensures { result ≡ answer_length }
{
    ANSWER_LENGTH
}

#[unsafe(no_mangle)]
pub extern "C" fn gudlemi_layout() -> u32
    ensures { result ≡ layout }
{
    head::LAYOUT
}
