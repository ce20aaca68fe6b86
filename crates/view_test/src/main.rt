// Prints what the view answers at both ends of each range, a labelled number a line; stdout has document 01's answers.
#![tactic(auto)]

use std::io;
use view::{Block, Place, View};

// A label and the number.
fn print(rt: &impl Print, name: &str, value: u64) -> io::Result<()> {
    println!(rt; "{name} {value}")
}

// A label, and a yes as 1, a no as 0.
fn print_bool(rt: &impl Print, name: &str, value: bool) -> io::Result<()> {
    print(rt, name, u64::from(value))
}

fn print_end(rt: &impl Print, name: &str, view: View, size: u32) -> io::Result<()> {
    print(rt, name, u64::from(view.end_of_book(size).0))
}

fn print_shown(rt: &impl Print, name: &str, view: View) -> io::Result<()> {
    print(rt, name, u64::from(view.shown()))
}

fn block(start: u16, length: u16) -> Block {
    Block { start, length }
}

// A view whose blocks past the second are zero.
fn two(displacement: u32, extent: u16, used: u8, first: Block, second: Block) -> View {
    let mut block = [Block::UNUSED; 8];
    block[0] = first;
    block[1] = second;
    View {
        displacement,
        extent,
        used,
        block,
    }
}

// A view with displacement 0 and one block.
fn one(extent: u16, start: u16, length: u16) -> View {
    two(0, extent, 1, block(start, length), Block::UNUSED)
}

// The view of document 01's example.
fn example() -> View {
    two(4, 5, 2, block(1, 2), block(4, 1))
}

// Eight blocks of one record, with a record between two of them.
fn eight(used: u8) -> View {
    View {
        displacement: 0,
        extent: 15,
        used,
        block: [
            block(0, 1),
            block(2, 1),
            block(4, 1),
            block(6, 1),
            block(8, 1),
            block(10, 1),
            block(12, 1),
            block(14, 1),
        ],
    }
}

// One block in use and the last of the others not zero.
fn last_left() -> View {
    let mut view = View::PLAIN;
    view.block[7] = block(0, 1);
    view
}

// The position of a place: in any view, in the example's, in the plain one and in one with an extent of 1024.
fn print_position(rt: &impl Print, name: &str, view: View, place: u32) -> io::Result<()> {
    let position = view.position(Place(place));
    print(rt, name, position.0)
}

fn print_in_example(rt: &impl Print, name: &str, place: u32) -> io::Result<()> {
    print_position(rt, name, example(), place)
}

fn print_in_plain(rt: &impl Print, name: &str, place: u32) -> io::Result<()> {
    print_position(rt, name, View::PLAIN, place)
}

fn print_in_1024(
    rt: &impl Print,
    name: &str,
    start: u16,
    length: u16,
    place: u32,
) -> io::Result<()> {
    print_position(rt, name, one(1024, start, length), place)
}

// The places of the example, and the last two that 32 bits hold.
fn positions_in_example(rt: &impl Print) -> io::Result<()> {
    print_in_example(rt, "example_0", 0)?;
    print_in_example(rt, "example_1", 1)?;
    print_in_example(rt, "example_2", 2)?;
    print_in_example(rt, "example_3", 3)?;
    print_in_example(rt, "example_4294967294", 4294967294)?;
    print_in_example(rt, "example_4294967295", 4294967295)
}

// The first and the last place that 32 bits hold, and the places at a tile's end.
fn positions(rt: &impl Print) -> io::Result<()> {
    print_in_plain(rt, "plain_0", 0)?;
    print_in_plain(rt, "plain_4294967295", 4294967295)?;
    print_in_1024(rt, "extent_1024_0", 0, 1, 0)?;
    print_in_1024(rt, "extent_1024_4294967295", 0, 1, 4294967295)?;
    print_in_1024(rt, "block_1023_0", 1023, 1, 0)?;
    print_in_1024(rt, "block_1023_4294967295", 1023, 1, 4294967295)?;
    print_in_1024(rt, "whole_tile_1023", 0, 1024, 1023)?;
    print_in_1024(rt, "whole_tile_1024", 0, 1024, 1024)?;
    print_position(rt, "eight_blocks_7", eight(8), 7)?;
    print_position(rt, "eight_blocks_8", eight(8), 8)
}

fn sums_of_lengths(rt: &impl Print) -> io::Result<()> {
    print_shown(rt, "shown_plain", View::PLAIN)?;
    print_shown(rt, "shown_example", example())?;
    print_shown(rt, "shown_eight_blocks", eight(8))?;
    print_shown(rt, "shown_whole_tile", one(1024, 0, 1024))
}

// Whether a view meets the rules for 64 bytes: any view, one with a displacement, one with one block and one with two.
fn print_ok(rt: &impl Print, name: &str, view: View) -> io::Result<()> {
    print_bool(rt, name, view.is_ok(64))
}

fn print_displaced_ok(rt: &impl Print, name: &str, displacement: u32) -> io::Result<()> {
    print_ok(
        rt,
        name,
        two(displacement, 1, 1, block(0, 1), Block::UNUSED),
    )
}

fn print_one_ok(
    rt: &impl Print,
    name: &str,
    extent: u16,
    start: u16,
    length: u16,
) -> io::Result<()> {
    print_ok(rt, name, one(extent, start, length))
}

fn print_second_ok(
    rt: &impl Print,
    name: &str,
    used: u8,
    start: u16,
    length: u16,
) -> io::Result<()> {
    print_ok(rt, name, two(0, 3, used, block(0, 2), block(start, length)))
}

// The rules on displacement and extent.
fn rules_of_numbers(rt: &impl Print) -> io::Result<()> {
    print_ok(rt, "ok_plain", View::PLAIN)?;
    print_ok(rt, "ok_example", example())?;
    print_displaced_ok(rt, "ok_displacement_0", 0)?;
    print_displaced_ok(rt, "ok_displacement_is_capacity", 64)?;
    print_displaced_ok(rt, "ok_displacement_past_capacity", 65)?;
    print_displaced_ok(rt, "ok_displacement_4294967295", 4294967295)?;
    print_one_ok(rt, "ok_extent_0", 0, 0, 1)?;
    print_one_ok(rt, "ok_extent_1", 1, 0, 1)?;
    print_one_ok(rt, "ok_extent_1024", 1024, 0, 1)?;
    print_one_ok(rt, "ok_extent_1025", 1025, 0, 1)?;
    print_one_ok(rt, "ok_extent_65535", 65535, 0, 1)
}

// The rules on how many blocks there are and on those that are not used.
fn rules_of_use(rt: &impl Print) -> io::Result<()> {
    print_ok(rt, "ok_used_0", two(0, 1, 0, Block::UNUSED, Block::UNUSED))?;
    print_one_ok(rt, "ok_used_1", 1, 0, 1)?;
    print_ok(rt, "ok_used_7_of_eight", eight(7))?;
    print_ok(rt, "ok_used_8", eight(8))?;
    print_ok(rt, "ok_used_9", eight(9))?;
    print_ok(rt, "ok_used_255", eight(255))?;
    print_second_ok(rt, "ok_unused_zero", 1, 0, 0)?;
    print_second_ok(rt, "ok_unused_start_2", 1, 2, 0)?;
    print_second_ok(rt, "ok_unused_length_1", 1, 0, 1)?;
    print_ok(rt, "ok_last_unused_not_zero", last_left())
}

// The rules on the blocks in use.
fn rules_of_blocks(rt: &impl Print) -> io::Result<()> {
    print_second_ok(rt, "ok_touching", 2, 2, 1)?;
    print_second_ok(rt, "ok_overlapping", 2, 1, 1)?;
    print_second_ok(rt, "ok_falling", 2, 0, 1)?;
    print_second_ok(rt, "ok_second_past_extent", 2, 2, 2)?;
    print_second_ok(rt, "ok_second_length_0", 2, 2, 0)?;
    print_one_ok(rt, "ok_end_is_extent", 3, 1, 2)?;
    print_one_ok(rt, "ok_end_past_extent", 3, 1, 3)?;
    print_one_ok(rt, "ok_start_past_extent", 3, 4, 1)?;
    print_one_ok(rt, "ok_whole_tile", 1024, 0, 1024)?;
    print_one_ok(rt, "ok_end_65536", 1024, 65535, 1)?;
    print_one_ok(rt, "ok_length_0", 3, 0, 0)
}

// Whether a run fits: in the plain view and in the example's.
fn print_fits(
    rt: &impl Print,
    name: &str,
    capacity: u32,
    place: u32,
    count: u32,
) -> io::Result<()> {
    print_bool(rt, name, View::PLAIN.fits(capacity, Place(place), count))
}

fn print_example_fits(rt: &impl Print, name: &str, capacity: u32, count: u32) -> io::Result<()> {
    let view = example();
    print_bool(rt, name, view.fits(capacity, Place(0), count))
}

fn runs(rt: &impl Print) -> io::Result<()> {
    print_fits(rt, "fits_8_in_64", 64, 0, 8)?;
    print_fits(rt, "fits_9_in_64", 64, 0, 9)?;
    print_fits(rt, "fits_7_in_63", 63, 0, 7)?;
    print_fits(rt, "fits_8_in_63", 63, 0, 8)?;
    print_fits(rt, "fits_1_from_7", 64, 7, 1)?;
    print_fits(rt, "fits_1_from_8", 64, 8, 1)?;
    print_fits(rt, "fits_0_from_0", 8, 0, 0)?;
    print_fits(rt, "fits_0_from_8", 64, 8, 0)?;
    print_fits(rt, "fits_0_from_4294967295", 8, 4294967295, 0)?;
    print_fits(rt, "fits_1_from_4294967295", 65536, 4294967295, 1)?;
    print_fits(
        rt,
        "fits_4294967295_from_4294967295",
        65536,
        4294967295,
        4294967295,
    )?;
    print_fits(rt, "fits_2_from_536870912", 65536, 536870912, 2)?;
    print_example_fits(rt, "fits_4_in_60_of_example", 60, 4)?;
    print_example_fits(rt, "fits_4_in_59_of_example", 59, 4)
}

// The end of a book: rounded up in the plain view, and in the example's; view/Edges has the sizes about each position.
fn ends(rt: &impl Print) -> io::Result<()> {
    print_end(rt, "end_of_24", View::PLAIN, 24)?;
    print_end(rt, "end_of_31", View::PLAIN, 31)?;
    print_end(rt, "end_of_7", View::PLAIN, 7)?;
    print_end(rt, "end_of_8", View::PLAIN, 8)?;
    print_end(rt, "end_of_0", View::PLAIN, 0)?;
    print_end(rt, "end_of_65536", View::PLAIN, 65536)?;
    print_end(rt, "end_of_4294967295", View::PLAIN, 4294967295)?;
    print_end(rt, "end_of_24_in_example", example(), 24)?;
    print_end(rt, "end_of_65536_in_example", example(), 65536)
}

// In a view that shows the last record of a tile, at the end of the displacement's range, and in views that break a rule.
fn ends_of_extremes(rt: &impl Print) -> io::Result<()> {
    print_end(
        rt,
        "end_of_65529_in_last_of_tile",
        one(1024, 1023, 1),
        65529,
    )?;
    print_end(
        rt,
        "end_of_65528_in_last_of_tile",
        one(1024, 1023, 1),
        65528,
    )?;
    let far = two(4294967294, 1, 1, block(0, 1), Block::UNUSED);
    print_end(rt, "end_of_4294967295_from_4294967294", far, 4294967295)?;
    print_end(rt, "end_in_nine_blocks", eight(9), 24)?;
    print_end(rt, "end_in_extent_0", one(0, 0, 1), 24)?;
    print_end(rt, "end_in_end_past_extent", one(3, 1, 3), 24)
}

fn print_all(rt: &impl Print) -> io::Result<()> {
    positions_in_example(rt)?;
    positions(rt)?;
    sums_of_lengths(rt)?;
    rules_of_numbers(rt)?;
    rules_of_use(rt)?;
    rules_of_blocks(rt)?;
    runs(rt)?;
    ends(rt)?;
    ends_of_extremes(rt)
}

// Text that cannot be written shows by the output alone.
fn main(rt: HostRuntime) {
    let _ = print_all(&rt);
}
