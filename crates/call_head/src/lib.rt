// The kind and the lane of a call at an index of a sheet, and whether the sheet has its body whole.
#![tactic(auto)]

ghost use Rattle.std.specs.Prelude.{◌+◌, ◌≤◌, true, ◌≡◌, leb, length};
ghost use Rattle.decode_fields.specs.Fields.{total};
ghost use Rattle.call_head.specs.Head.{HeadMeets, lane_kind, rest_of};

use decode_fields::Field;

// A call's kind and lane and the index past them, where the kind names a lane and the sheet has the body whole.
#[derive(Clone, Copy, Debug, PartialEq, Eq)]
pub struct Head {
    pub kind: u8,
    pub lane: u8,
    pub to: usize,
}

// Whether a sheet has the fields past the lane whole, from an index of it on.
// No kind has more than 12 bytes there, so that mostly the kind need not be looked at.
#[tactic(auto, using(crate::proofs::LaneKinds::few_rest, crate::proofs::Heads::room_shift))]
fn has_rest(sheet: &[u8], to: usize, kind: u8) -> bool
    requires { (to ≤ length sheet.now) × (lane_kind kind ≡ true) }
    ensures { result ≡ leb (to + total (rest_of kind)) (length sheet.now) }
{
    let left = sheet.len() - to;
    12 <= left || rest_of(kind) <= left
}

// The length of the fields past the lane.
pub fn rest_of(kind: u8) -> usize
    requires { lane_kind kind ≡ true }
    ensures { (result ≡ total (rest_of kind)) × (result ≤ 12) }
{
    match kind {
        0x02 => 1,
        0x04 => 2,
        0x05 => 8,
        0x07 => 12,
        0x08 => 4,
        0x0A => 2,
        _ => 0,
    }
}

// The call of a lane at an index; none where the kind there names no lane, which 02 to 0A do, or the sheet ends before its body does.
#[inline(always)]
pub fn head_at(sheet: &[u8], at: usize) -> Option<Head>
    ensures { HeadMeets sheet.now at result }
{
    let Some((kind, to_lane)) = u8::read(sheet, at) else {
        return None;
    };
    let Some((lane, to)) = u8::read(sheet, to_lane) else {
        return None;
    };
    if kind < 0x02 {
        return None;
    }
    if 0x0A < kind {
        return None;
    }
    if !has_rest(sheet, to, kind) {
        return None;
    }
    Some(Head { kind, lane, to })
}
