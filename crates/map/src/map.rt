// The struct stands in a file of its own: it imports every `ghost use` of its file, and the
// definitions that speak of a map import the struct.
ghost use Rattle.std.specs.Prelude.{◌≡◌, ℕ, ◌≤◌, true, false, is_some, slice_index_or};
ghost use Rattle.map.specs.Floors.{on_floor, head_of};
ghost use Rattle.map.specs.Counts.{how_many};

use crate::size::Size;

pub mod ask;
pub mod change;

// No model: behind one, the proofs above could not read the rules that every map keeps, as they do
// from the ghost fields here. Clauses speak of a map by its `layout`.
/// A floor of at most 16 by 16 tables: which tables and segments are closed, and which tables
/// are stops. Nothing off the floor is ever marked, and at most 64 tables are stops.
#[derive(Clone, Copy)]
pub struct Map {
    size: Size,
    // Flags by number, true where closed: no sets, since the library never allocates, and no array of
    // tables, since each rule below speaks of one array of flags.
    tables: [bool; 256],
    segments: [bool; 1024],
    stops: [bool; 256],
    // How many stops there are. Not counted anew: each call that marks one would go over all flags.
    count: u8,
    ghost tables_there: { (t : ℕ) → slice_index_or tables t false ≡ true → on_floor size.width size.height t ≡ true },
    ghost segments_there: { (s : ℕ) → slice_index_or segments s false ≡ true → is_some (head_of size.width size.height s) ≡ true },
    ghost stops_there: { (t : ℕ) → slice_index_or stops t false ≡ true → on_floor size.width size.height t ≡ true },
    ghost counted: { count ≡ how_many stops },
    ghost few: { count ≤ 64 },
}
