// What a position needs of a view, made once when the view is set: three numbers, and a table of the records that the view shows of a tile.
#![tactic(auto)]

ghost use Rattle.std.specs.Prelude.{◌≡◌, ◌+◌, ◌≤◌, ◌<◌};
ghost use Rattle.std.proofs.lemmas.List.Edits.{sets};
ghost use Rattle.limits.specs.Limits.{most_extent};
ghost use Rattle.view.specs.View.{place};
ghost use Rattle.tiling.specs.Tiling.{tiling_of, records_from, records_of, Tileable, Shows, TablePositioned, table_fits};

use limits::MOST_EXTENT;
use view::{Block, Place, Position, View};

// The entries of a table: a tile shows no more records than it has.
pub const MOST_RECORDS: usize = MOST_EXTENT as usize;

// What a position needs of a view, but for the records that it shows of a tile, which stand beside it in a table.
#[derive(Clone, Copy, Debug, PartialEq, Eq)]
pub struct Tiling {
    pub displacement: u32,
    pub extent: u16,
    pub shown: u32,
}

impl Tiling {
    // The three numbers of a view.
    pub fn of(view: View) -> Tiling
        ensures { result ≡ tiling_of view }
    {
        Tiling {
            displacement: view.displacement,
            extent: view.extent,
            shown: view.shown(),
        }
    }

    // The position of the record with this number among those shown. Where a tile shows one record, as in the plain view, nothing is divided.
    #[tactic(auto, using(crate::proofs::Laws::one_shown, crate::proofs::Walk::within_table, view::proofs::Walk::tile_most), unfolding(crate::specs::Tiling::table_position))]
    pub fn position(self, records: &[u16; MOST_RECORDS], number: u64) -> Position
        requires { Shows self × (number < 8589934592) }
        ensures { TablePositioned self records.now (place number) result }
    {
        let displacement = u64::from(self.displacement);
        let extent = u64::from(self.extent);
        let shown = u64::from(self.shown);
        if shown == 1 {
            return Position(displacement + 8 * (number * extent + u64::from(records[0])));
        }
        let tile = number / shown;
        let record = records[(number % shown) as usize];
        Position(displacement + 8 * (tile * extent + u64::from(record)))
    }

    // Whether a run of records from a place ends at or below the capacity.
    #[tactic(auto, using(crate::proofs::Laws::table_last))]
    pub fn fits(
        self,
        records: &[u16; MOST_RECORDS],
        capacity: u32,
        place: Place,
        count: u32,
    ) -> bool
        requires { Shows self }
        ensures { result ≡ table_fits self records.now capacity place count }
    {
        if count == 0 {
            return true;
        }
        let last = u64::from(place.0) + u64::from(count - 1);
        self.position(records, last).0 + 8 <= u64::from(capacity)
    }
}

// The records of a block, one after the other, stored from an index of the table on.
#[tactic(auto, using(crate::proofs::Walk::store_more, crate::proofs::Walk::store_end))]
fn store_block(records: &mut [u16; MOST_RECORDS], at: usize, block: Block)
    requires { (at + block.length ≤ most_extent) × (block.start + block.length ≤ most_extent) }
    ensures { records.new ≡ sets records.old at (records_from block.start block.length) }
{
    for i in 0..block.length {
        records[at + usize::from(i)] = block.start + i;
    }
}

// The records that a view shows of a tile, in order: the table; zero past them.
#[tactic(auto, using(crate::proofs::Walk::lengths_next, crate::proofs::Walk::ends_here, lists::proofs::Parts::length_unmapped), unfolding(crate::specs::Tiling::records_of, crate::specs::Tiling::shown_records))]
pub fn records_of(view: View) -> [u16; MOST_RECORDS]
    requires { Tileable view }
    ensures { result ≡ records_of view }
{
    let mut records = [0; MOST_RECORDS];
    let mut at = 0;
    for b in &view.block[..usize::from(view.used)] {
        store_block(&mut records, at, *b);
        at += usize::from(b.length);
    }
    records
}
