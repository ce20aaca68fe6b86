// Fields read from a lent sheet at an index: big-endian numbers of one, two, four and eight bytes, and blocks.
#![tactic(auto)]

ghost use Rattle.std.specs.Prelude.{◌≡◌, ℕ, List, ◌++◌, [], ◌∷◌, ◌+◌, ◌≤◌, ◌<◌, leb, drop, length, replicate, take};
ghost use Rattle.event.specs.BigEndian.{number_of, signed};
ghost use Rattle.event.specs.Event.{block_numbers};
ghost use Rattle.decode_fields.specs.Fields.{fields_at, said};

use limits::MOST_BLOCKS;
use view::Block;

// A field of an event's body that is read from a lent sheet: a big-endian number of one, two, four or eight bytes, a block, or the eight blocks of a view.
pub trait Field: Sized {
    // The lengths in bytes of the numbers that make it up, and those numbers.
    ghost lengths: { List ℕ };

    ghost numbers: { Self → List ℕ };

    // The field at an index and the index past it; none where the sheet ends before.
    fn read(sheet: &[u8], at: usize) -> Option<(Self, usize)>
        ensures { said numbers result ≡ fields_at lengths sheet.now at };
}

// Whether the sheet has `n` bytes from `at` on.
fn has(sheet: &[u8], at: usize, n: usize) -> bool
    ensures { result ≡ leb (at + n) (length sheet.now) }
{
    sheet.len() >= n && sheet.len() - n >= at
}

// The number in the two, four or eight bytes at an index; for readers of fields that have looked at the length.
// Three functions: one for all would need a trait for the number with its width, and be no plainer.
#[tactic(auto, using(crate::proofs::Numbers::two_bytes))]
pub fn number16(sheet: &[u8], at: usize) -> u16
    requires { at + 2 ≤ length sheet.now }
    ensures { (result ≡ number_of (take 2 (drop at sheet.now))) × (result < 65536) }
{
    let high = u16::from(sheet[at]);
    let low = u16::from(sheet[at + 1]);
    high * 256 + low
}

#[tactic(auto, using(crate::proofs::Numbers::four_bytes))]
pub fn number32(sheet: &[u8], at: usize) -> u32
    requires { at + 4 ≤ length sheet.now }
    ensures { (result ≡ number_of (take 4 (drop at sheet.now))) × (result < 4294967296) }
{
    let high = number16(sheet, at);
    let low = number16(sheet, at + 2);
    u32::from(high) * 65536 + u32::from(low)
}

#[tactic(auto, using(crate::proofs::Numbers::eight_bytes))]
pub fn number64(sheet: &[u8], at: usize) -> u64
    requires { at + 8 ≤ length sheet.now }
    ensures { result ≡ number_of (take 8 (drop at sheet.now)) }
{
    let high = number32(sheet, at);
    let low = number32(sheet, at + 4);
    u64::from(high) * 4294967296 + u64::from(low)
}

impl Field for u8 {
    ghost lengths = { 1 ∷ [] };

    ghost numbers = { λ n. n ∷ [] };

    #[tactic(auto, using(crate::proofs::InOrder::one_cut, crate::proofs::InOrder::one_got, crate::proofs::Numbers::number_of_one))]
    fn read(sheet: &[u8], at: usize) -> Option<(u8, usize)> {
        if !has(sheet, at, 1) {
            return None;
        }
        Some((sheet[at], at + 1))
    }
}

impl Field for u16 {
    ghost lengths = { 2 ∷ [] };

    ghost numbers = { λ n. n ∷ [] };

    #[tactic(auto, using(crate::proofs::InOrder::one_cut, crate::proofs::InOrder::one_got, crate::proofs::Numbers::number_of_one))]
    fn read(sheet: &[u8], at: usize) -> Option<(u16, usize)> {
        if !has(sheet, at, 2) {
            return None;
        }
        Some((number16(sheet, at), at + 2))
    }
}

impl Field for u32 {
    ghost lengths = { 4 ∷ [] };

    ghost numbers = { λ n. n ∷ [] };

    #[tactic(auto, using(crate::proofs::InOrder::one_cut, crate::proofs::InOrder::one_got, crate::proofs::Numbers::number_of_one))]
    fn read(sheet: &[u8], at: usize) -> Option<(u32, usize)> {
        if !has(sheet, at, 4) {
            return None;
        }
        Some((number32(sheet, at), at + 4))
    }
}

impl Field for u64 {
    ghost lengths = { 8 ∷ [] };

    ghost numbers = { λ n. n ∷ [] };

    #[tactic(auto, using(crate::proofs::InOrder::one_cut, crate::proofs::InOrder::one_got, crate::proofs::Numbers::number_of_one))]
    fn read(sheet: &[u8], at: usize) -> Option<(u64, usize)> {
        if !has(sheet, at, 8) {
            return None;
        }
        Some((number64(sheet, at), at + 8))
    }
}

// A block: its start and its length.
impl Field for Block {
    ghost lengths = { 2 ∷ 2 ∷ [] };

    ghost numbers = { λ b. block_numbers (b ∷ []) };

    fn read(sheet: &[u8], at: usize) -> Option<(Block, usize)> {
        let Some(((start, length), end)) = <(u16, u16)>::read(sheet, at) else {
            return None;
        };
        Some((Block { start, length }, end))
    }
}

// Two fields, one after the other.
impl<A: Field + Copy, B: Field + Copy> Field for (A, B) {
    ghost lengths = { A.lengths ++ B.lengths };

    ghost numbers = { λ p. A.numbers p.0 ++ B.numbers p.1 };

    #[tactic(auto, using(crate::proofs::InOrder::pair_cut, crate::proofs::InOrder::pair_cut_later, crate::proofs::InOrder::pair_got))]
    fn read(sheet: &[u8], at: usize) -> Option<((A, B), usize)> {
        let Some((first, to_second)) = A::read(sheet, at) else {
            return None;
        };
        let Some((second, end)) = B::read(sheet, to_second) else {
            return None;
        };
        Some(((first, second), end))
    }
}

type Four = ((Block, Block), (Block, Block));

// The eight blocks of a view event, one after the other.
impl Field for [Block; MOST_BLOCKS] {
    ghost lengths = { replicate 16 2 };

    ghost numbers = { block_numbers };

    fn read(sheet: &[u8], at: usize) -> Option<([Block; MOST_BLOCKS], usize)> {
        let Some(((((b0, b1), (b2, b3)), ((b4, b5), (b6, b7))), end)) = <(Four, Four)>::read(
            sheet, at,
        ) else {
            return None;
        };
        Some(([b0, b1, b2, b3, b4, b5, b6, b7], end))
    }
}

// Four bytes as a number of two's complement.
#[tactic(auto, using(crate::proofs::Signed::cast_is))]
pub fn signed_of(n: u32) -> i32
    ensures { result ≡ signed n }
{
    n.cast_signed()
}
