// The entries of a state: what each lane is doing, as four numbers in eight bytes.
ghost use Rattle.std.specs.Prelude.{◌≡◌, [], ◌∷◌, ◌+◌, ◌≤◌, drop, length};
ghost use Rattle.std.proofs.lemmas.List.Edits.{sets};
ghost use Rattle.lists.specs.Lists.{all_pass};
ghost use Rattle.limits.specs.Limits.{most_lanes};
ghost use Rattle.event.specs.Event.{fields_in};
ghost use Rattle.state_bytes.specs.StateBytes.{entries_at, entries_in, entries_of, entry_lengths, entry_numbers, flags_at, is_entry, lane_at, lanes_in, phase_of, purpose_number};
ghost use Rattle.state_bytes.specs.Entries.{numbers_in};

use changes::phases::purpose_of;
use decode_fields::{number16, number32};
use encode_fields::Field;
use limits::MOST_LANES;
use line::{Lane, Phase, Purpose};
use std::array;
use view::Place;

// Where the entries start.
const ENTRIES_AT: usize = 64;

// The numbers of an entry.
#[derive(Clone, Copy, Debug, PartialEq, Eq)]
pub struct Entry {
    pub phase: u8,
    pub purpose: u8,
    pub records: u16,
    pub place: u32,
}

fn purpose_number(purpose: Purpose) -> u8
    ensures { result ≡ purpose_number purpose }
{
    match purpose {
        Purpose::SharedWrite => 0,
        Purpose::SharedRead => 1,
        Purpose::WholeBook => 2,
    }
}

fn entry_with(phase: u8, purpose: u8, records: u16, place: Place) -> Entry
    ensures { numbers_in result ≡ phase ∷ purpose ∷ records ∷ place.0 ∷ [] }
{
    Entry {
        phase,
        purpose,
        records,
        place: place.0,
    }
}

// The entry of a phase.
impl From<Phase> for Entry {
    ghost from_gives = { λ x e. numbers_in e ≡ entry_numbers x };

    fn from(x: Phase) -> Entry {
        match x {
            Phase::Idle => entry_with(0, 0, 0, Place(0)),
            Phase::Waiting(purpose) => entry_with(1, purpose_number(purpose), 0, Place(0)),
            Phase::Woken(purpose, value) => entry_with(2, purpose_number(purpose), 0, value),
            Phase::Holding(purpose, value) => entry_with(3, purpose_number(purpose), 0, value),
            Phase::BusyWriting { left, next } => entry_with(4, 0, left, next),
            Phase::BusyReading { left, next } => entry_with(5, 1, left, next),
            Phase::Gathered(count) => entry_with(6, 0, count, Place(0)),
        }
    }
}

// An entry as it is stored.
impl Field for Entry {
    ghost lengths = { entry_lengths };

    ghost numbers = { numbers_in };

    fn put(self, buffer: &mut [u8], at: usize) -> usize {
        (self.phase, (self.purpose, (self.records, self.place))).put(buffer, at)
    }
}

impl Entry {
    // The phase that its numbers name.
    fn phase(self) -> Phase
        ensures { result ≡ phase_of (numbers_in self) }
    {
        let purpose = purpose_of(self.purpose);
        let records = self.records;
        let place = Place(self.place);
        match self.phase {
            1 => Phase::Waiting(purpose),
            2 => Phase::Woken(purpose, place),
            3 => Phase::Holding(purpose, place),
            4 => Phase::BusyWriting {
                left: records,
                next: place,
            },
            5 => Phase::BusyReading {
                left: records,
                next: place,
            },
            6 => Phase::Gathered(records),
            _ => Phase::Idle,
        }
    }

    // Whether its numbers are those of the phase that they name.
    fn is_exact(self) -> bool
        ensures { result ≡ is_entry (numbers_in self) }
    {
        self == Entry::from(self.phase())
    }

    // The numbers at an index.
    #[tactic(auto, using(crate::proofs::Walk::entry_fields))]
    fn read(bytes: &[u8], at: usize) -> Entry
        requires { at + 8 ≤ length bytes.now }
        ensures { numbers_in result ≡ fields_in entry_lengths (drop at bytes.now) }
    {
        Entry {
            phase: bytes[at],
            purpose: bytes[at + 1],
            records: number16(bytes, at + 2),
            place: number32(bytes, at + 4),
        }
    }
}

// Whether each entry has the numbers of the phase that it names.
#[tactic(auto, using(crate::proofs::Walk::ok_stop, crate::proofs::Walk::ok_more, crate::proofs::Walk::ok_end))]
pub fn entries_ok(bytes: &[u8]) -> bool
    requires { flags_at ≤ length bytes.now }
    ensures { result ≡ all_pass is_entry (entries_in most_lanes (drop entries_at bytes.now)) }
{
    for i in 0..MOST_LANES {
        if !Entry::read(bytes, ENTRIES_AT + 8 * i).is_exact() {
            return false;
        }
    }
    true
}

// The lane that the entry at an index names.
fn lane_at(bytes: &[u8], at: usize) -> Lane
    requires { at + 8 ≤ length bytes.now }
    ensures { result ≡ lane_at at bytes.now }
{
    Lane {
        phase: Entry::read(bytes, at).phase(),
    }
}

// The lanes that the entries name.
pub fn lanes_in(bytes: &[u8]) -> [Lane; MOST_LANES]
    requires { flags_at ≤ length bytes.now }
    ensures { result ≡ lanes_in bytes.now }
{
    array::from_fn(|i| lane_at(bytes, ENTRIES_AT + 8 * i))
}

// Stores the entries of all lanes.
#[tactic(auto, using(crate::proofs::Walk::stored_more, crate::proofs::Walk::stored_end), unfolding(encode_fields::specs::Put::put_fields))]
pub fn put_lanes(bytes: &mut [u8], lanes: [Lane; MOST_LANES])
    requires { flags_at ≤ length bytes.old }
    ensures { bytes.new ≡ sets bytes.old entries_at (entries_of lanes) }
{
    let mut at = ENTRIES_AT;
    for lane in lanes {
        at = Entry::from(lane.phase).put(bytes, at);
    }
}
