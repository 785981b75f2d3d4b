ghost use Rattle.std.specs.Prelude.{◌≡◌, ℕ};
ghost use Rattle.ways.specs.RowFirsts.{row_first_way, row_first_key};

use crate::finder::WayFinder;
use map::side::Side;
use orders::key::Pair;
use orders::ranker::Ranker;

/// Along the row to the destination's column, then along the column: a way-finder, and its
/// ranker. It knows no map, and answers for every table.
#[derive(Clone, Copy, PartialEq, Eq, Debug)]
pub struct RowFirst;

impl WayFinder for RowFirst {
    ghost first = { λ _ _ _. 0 };

    ghost way = { λ _ t d _. row_first_way t d };

    fn first_note(&self, origin: u8, destination: u8) -> u32 {
        0
    }

    fn way(&self, table: u8, destination: u8, note: u32) -> Option<(Side, u32)> {
        let (column, row) = (table % 16, table / 16);
        let (to_column, to_row) = (destination % 16, destination / 16);
        // By tests: by `cmp` a way takes nearly twice the time, and so does a detour's over it.
        if column < to_column {
            Some((Side::East, 0))
        } else if to_column < column {
            Some((Side::West, 0))
        } else if row < to_row {
            Some((Side::South, 0))
        } else if to_row < row {
            Some((Side::North, 0))
        } else {
            None
        }
    }
}

/// Rows come before columns, and within each the keys rise in the direction of travel.
impl Ranker for RowFirst {
    type Key = Pair<u16, u16>;

    ghost key = { λ _ n. row_first_key n };

    fn key(&self, segment: u16) -> Pair<u16, u16> {
        let (column, row) = (segment / 4 % 16, segment / 4 / 16);
        let (first, second) = match Side::of_segment(segment) {
            _ if segment >= 1024 => (2, 0),
            Side::East => (0, column),
            Side::West => (0, 15 - column),
            Side::North => (1, 15 - row),
            Side::South => (1, row),
        };
        Pair { first, second }
    }
}
