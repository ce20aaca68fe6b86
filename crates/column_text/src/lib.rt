// Columns of a text: blanks stored in a lent buffer up to an index, before a text that is right-aligned or after one that is left-aligned.
#![tactic(auto)]

ghost use Rattle.std.specs.Prelude.{◌-◌, ◌≤◌, length, replicate};
ghost use Rattle.number_text.specs.Stored.{Stored};

use word_text::BLANK;

// Blanks from an index to another; the index after them.
#[tactic(auto, using(number_text::proofs::Stores::part_stored))]
pub fn put_blanks(out: &mut [u8], from: usize, to: usize) -> usize
    requires { (from ≤ to) × (to ≤ length out.old) }
    ensures { Stored (replicate (to - from) 32) out.old from out.new result }
{
    out[from..to].fill(BLANK);
    to
}
