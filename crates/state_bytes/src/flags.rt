// The flags of a state: a byte for each lane.
ghost use Rattle.std.specs.Prelude.{◌≡◌, ◌≤◌, drop, length, take};
ghost use Rattle.std.proofs.lemmas.List.Edits.{sets};
ghost use Rattle.limits.specs.Limits.{most_lanes};
ghost use Rattle.state_bytes.specs.StateBytes.{flags_at, state_length};

use crate::STATE_LENGTH;
use limits::MOST_LANES;

// Where the flags start.
const FLAGS_AT: usize = 1088;

pub fn flags_in(bytes: &[u8]) -> [u8; MOST_LANES]
    requires { state_length ≤ length bytes.now }
    ensures { result ≡ take most_lanes (drop flags_at bytes.now) }
{
    let mut flags = [0u8; MOST_LANES];
    flags.copy_from_slice(&bytes[FLAGS_AT..STATE_LENGTH]);
    flags
}

pub fn put_flags(bytes: &mut [u8], flags: [u8; MOST_LANES])
    requires { state_length ≤ length bytes.old }
    ensures { bytes.new ≡ sets bytes.old flags_at flags }
{
    bytes[FLAGS_AT..STATE_LENGTH].copy_from_slice(&flags);
}
