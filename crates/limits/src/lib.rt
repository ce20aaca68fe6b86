// The limits of a line, its book, its view and a sheet: the code's one place for each. The definitions have their own, specs/Limits; contracts hold the two to one value.
#![tactic(auto)]

// The most lanes that a line has.
pub const MOST_LANES: usize = 128;

// The least and the greatest capacity of a book, in bytes.
pub const LEAST_CAPACITY: u32 = 8;

pub const MOST_CAPACITY: u32 = 65536;

// The last place that the pointer takes.
pub const MOST_POINTER: u32 = 65536;

// The greatest extent of a view, in records.
pub const MOST_EXTENT: u16 = 1024;

// The most blocks of a view.
pub const MOST_BLOCKS: usize = 8;

// The longest sheet, in bytes.
pub const MOST_SHEET: usize = 65536;
