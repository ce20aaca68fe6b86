// An answer in lent bytes: stored, told from other bytes, and read back. The layout is in specs/AnswerBytes.
#![tactic(auto)]

ghost use Rattle.std.specs.Prelude.{◌≡◌, [], ◌∷◌, ◌++◌, ◌%◌, ◌≤◌, length};
ghost use Rattle.std.proofs.lemmas.List.Edits.{sets};
ghost use Rattle.lists.specs.Lists.{same_numbers};
ghost use Rattle.view.specs.View.{place};
ghost use Rattle.event.specs.Event.{fields_in};
ghost use Rattle.answer_bytes.specs.AnswerBytes.{answer_bytes, answer_in, answer_length, answer_lengths, answer_numbers, answer_of, is_answer, wakes_numbers, wakes_of};
ghost use Rattle.answer_bytes.specs.Held.{numbers_in};

use decode_fields::{number32, number64};
use encode_fields::Field;
use steps::Answer;
use view::{Place, Position};

// The length of an answer in bytes.
pub const ANSWER_LENGTH: usize = 16;

// The numbers of an answer: its word's, document 01's own, whether a lane is woken and which, and two values.
#[derive(Clone, Copy, Debug, PartialEq, Eq)]
pub struct Numbers {
    pub word: u8,
    pub number: u8,
    pub woken: u8,
    pub lane: u8,
    pub first: u64,
    pub second: u32,
}

// The numbers of an answer that wakes no lane.
fn plain(word: u8, number: u8, first: u64, second: u32) -> Numbers
    ensures { numbers_in result ≡ word ∷ number ∷ 0 ∷ 0 ∷ first ∷ second ∷ [] }
{
    release(word, number, None, first, second)
}

// The numbers of a release.
fn release(word: u8, number: u8, wakes: Option<u8>, first: u64, second: u32) -> Numbers
    ensures { numbers_in result ≡ word ∷ number ∷ wakes_numbers wakes ++ first ∷ second ∷ [] }
{
    Numbers {
        word,
        number,
        woken: u8::from(wakes.is_some()),
        lane: wakes.unwrap_or(0),
        first,
        second,
    }
}

// The numbers of an answer.
impl From<Answer> for Numbers {
    ghost from_gives = { λ a n. numbers_in n ≡ answer_numbers a };

    fn from(answer: Answer) -> Numbers {
        match answer {
            Answer::Open { lanes, capacity } => plain(1, 0x01, u64::from(lanes), capacity),
            Answer::Holds { pointer } => plain(2, 0x02, u64::from(pointer.0), 0),
            Answer::Waits => plain(3, 0x02, 0, 0),
            Answer::Region {
                start,
                count,
                wakes,
            } => release(4, 0x04, wakes, u64::from(start.0), u32::from(count)),
            Answer::Wrote { position } => plain(5, 0x05, position.0, 0),
            Answer::Record { content } => plain(6, 0x06, content, 0),
            Answer::None => plain(7, 0x06, 0, 0),
            Answer::Freed { wakes } => release(8, 0x09, wakes, 0, 0),
            Answer::Gathered => plain(9, 0x0A, 0, 0),
            Answer::Ordered { before, total } => plain(10, 0x0A, u64::from(before.0), total),
            Answer::View => plain(11, 0x0B, 0, 0),
            Answer::Seek { pointer } => plain(12, 0x0C, u64::from(pointer.0), 0),
            Answer::Refused { number } => plain(0, number, 0, 0),
        }
    }
}

// The numbers as they are stored.
impl Field for Numbers {
    ghost lengths = { answer_lengths };

    ghost numbers = { numbers_in };

    fn put(self, buffer: &mut [u8], at: usize) -> usize {
        let lane = (self.woken, self.lane);
        ((self.word, self.number), (lane, (self.first, self.second))).put(buffer, at)
    }
}

impl Numbers {
    // The lane that they say is woken.
    fn wakes(self) -> Option<u8>
        ensures { result ≡ wakes_of self.woken self.lane }
    {
        if self.woken == 0 {
            None
        } else {
            Some(self.lane)
        }
    }

    // The first value as a place.
    fn place(self) -> Place
        ensures { result ≡ place (self.first % 4294967296) }
    {
        Place((self.first % 4294967296) as u32)
    }

    // The answer that they name; a value is cut to its type, so that `as` loses nothing.
    fn answer(self) -> Answer
        ensures { result ≡ answer_of (numbers_in self) }
    {
        let place = self.place();
        match self.word {
            0 => Answer::Refused {
                number: self.number,
            },
            1 => Answer::Open {
                lanes: (self.first % 256) as u8,
                capacity: self.second,
            },
            2 => Answer::Holds { pointer: place },
            3 => Answer::Waits,
            4 => Answer::Region {
                start: place,
                count: (self.second % 65536) as u16,
                wakes: self.wakes(),
            },
            5 => Answer::Wrote {
                position: Position(self.first),
            },
            6 => Answer::Record {
                content: self.first,
            },
            8 => Answer::Freed {
                wakes: self.wakes(),
            },
            9 => Answer::Gathered,
            10 => Answer::Ordered {
                before: place,
                total: self.second,
            },
            11 => Answer::View,
            12 => Answer::Seek { pointer: place },
            _ => Answer::None,
        }
    }

    // Whether they are those of the answer that they name.
    fn is_exact(self) -> bool
        ensures { result ≡ same_numbers (numbers_in self) (answer_numbers (answer_of (numbers_in self))) }
    {
        let own = Numbers::from(self.answer());
        self == own
    }

    // The numbers in bytes.
    #[tactic(auto, using(crate::proofs::Words::answer_fields))]
    fn read(bytes: &[u8]) -> Numbers
        requires { answer_length ≤ length bytes.now }
        ensures { numbers_in result ≡ fields_in answer_lengths bytes.now }
    {
        Numbers {
            word: bytes[0],
            number: bytes[1],
            woken: bytes[2],
            lane: bytes[3],
            first: number64(bytes, 4),
            second: number32(bytes, 12),
        }
    }
}

// Whether bytes begin with an answer.
pub fn is_answer(bytes: &[u8]) -> bool
    ensures { result ≡ is_answer bytes.now }
{
    bytes.len() >= ANSWER_LENGTH && Numbers::read(bytes).is_exact()
}

// The answer that the bytes are.
pub fn answer_in(bytes: &[u8]) -> Answer
    requires { answer_length ≤ length bytes.now }
    ensures { result ≡ answer_in bytes.now }
{
    Numbers::read(bytes).answer()
}

// Stores an answer at the start of the bytes; those past it stay.
#[tactic(auto, unfolding(encode_fields::specs::Put::put_fields))]
pub fn put_answer(bytes: &mut [u8], answer: Answer)
    requires { answer_length ≤ length bytes.old }
    ensures { bytes.new ≡ sets bytes.old 0 (answer_bytes answer) }
{
    Numbers::from(answer).put(bytes, 0);
}
