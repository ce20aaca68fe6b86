// Fields stored big-endian in a lent buffer: numbers, blocks, and fields one after the other, as the kind and the fields of a body.
// Each requires the room that encode has tested.
#![tactic(auto)]

ghost use Rattle.std.specs.Prelude.{◌≡◌, ℕ, List, ◌++◌, [], ◌∷◌, ◌+◌, ◌≤◌, ◌<◌, length, replicate};
ghost use Rattle.event.specs.BigEndian.{unsigned};
ghost use Rattle.event.specs.Event.{block_numbers};
ghost use Rattle.encode_fields.specs.Put.{put_fields, total};

use limits::MOST_BLOCKS;
use view::Block;

// A field that is stored in a lent buffer: a big-endian number of one, two, four or eight bytes, a block, the eight blocks of a view, or two fields in order.
pub trait Field: Sized {
    // The lengths in bytes of the numbers that make it up, and those numbers.
    ghost lengths: { List ℕ };

    ghost numbers: { Self → List ℕ };

    // Stores it from an index on; the answer is the index past it.
    fn put(self, buffer: &mut [u8], at: usize) -> usize
        requires { at + total lengths ≤ length buffer.old }
        ensures stored { buffer.new ≡ put_fields lengths (numbers self) buffer.old at }
        ensures past { result ≡ at + total lengths }
        ensures counted { length (numbers self) ≡ length lengths };
}

impl Field for u8 {
    ghost lengths = { 1 ∷ [] };

    ghost numbers = { λ n. n ∷ [] };

    #[tactic(auto, using(crate::proofs::Puts::one_byte))]
    fn put(self, buffer: &mut [u8], at: usize) -> usize {
        buffer[at] = self;
        at + 1
    }
}

impl Field for u16 {
    ghost lengths = { 2 ∷ [] };

    ghost numbers = { λ n. n ∷ [] };

    // Here and below `as` narrows a quotient or a remainder, which fits: `try_from` would answer an error that cannot come.
    #[tactic(auto, using(crate::proofs::Puts::two_bytes))]
    fn put(self, buffer: &mut [u8], at: usize) -> usize {
        buffer[at] = (self / 256) as u8;
        buffer[at + 1] = (self % 256) as u8;
        at + 2
    }
}

impl Field for u32 {
    ghost lengths = { 4 ∷ [] };

    ghost numbers = { λ n. n ∷ [] };

    #[tactic(auto, using(crate::proofs::Puts::halves_4))]
    fn put(self, buffer: &mut [u8], at: usize) -> usize {
        ((self / 65536) as u16, (self % 65536) as u16).put(buffer, at)
    }
}

impl Field for u64 {
    ghost lengths = { 8 ∷ [] };

    ghost numbers = { λ n. n ∷ [] };

    #[tactic(auto, using(crate::proofs::Puts::halves_8))]
    fn put(self, buffer: &mut [u8], at: usize) -> usize {
        ((self / 4294967296) as u32, (self % 4294967296) as u32).put(buffer, at)
    }
}

// Two fields, one after the other.
impl<A: Field + Copy, B: Field + Copy> Field for (A, B) {
    ghost lengths = { A.lengths ++ B.lengths };

    ghost numbers = { λ p. A.numbers p.0 ++ B.numbers p.1 };

    #[tactic(auto, using(crate::proofs::Puts::put_pair, crate::proofs::Puts::total_both, crate::proofs::Puts::counted_both))]
    fn put(self, buffer: &mut [u8], at: usize) -> usize {
        let to = self.0.put(buffer, at);
        self.1.put(buffer, to)
    }
}

// A block: its start and its length.
impl Field for Block {
    ghost lengths = { 2 ∷ 2 ∷ [] };

    ghost numbers = { λ b. block_numbers (b ∷ []) };

    fn put(self, buffer: &mut [u8], at: usize) -> usize {
        (self.start, self.length).put(buffer, at)
    }
}

// The eight blocks of a view event, one after the other.
impl Field for [Block; MOST_BLOCKS] {
    ghost lengths = { replicate 16 2 };

    ghost numbers = { block_numbers };

    #[tactic(auto, using(crate::proofs::Puts::eight_counted, crate::proofs::Puts::eight_put))]
    fn put(self, buffer: &mut [u8], at: usize) -> usize {
        let low = ((self[0], self[1]), (self[2], self[3]));
        let high = ((self[4], self[5]), (self[6], self[7]));
        (low, high).put(buffer, at)
    }
}

// A number of two's complement as four bytes.
#[tactic(auto, using(crate::proofs::Unsigned::cast_is))]
pub fn unsigned_of(z: i32) -> u32
    ensures { result ≡ unsigned z }
{
    z.cast_unsigned()
}
