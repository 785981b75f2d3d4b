ghost use Rattle.std.specs.Prelude.{◌≡◌, Err};
ghost use Rattle.routes.specs.declared.refusal.Reason.TheVariants.{NotRising};
ghost use Rattle.examples.specs.Turning.{turning_way, turning_key};

use map::side::Side;
use orders::ranker::Ranker;
use ways::finder::WayFinder;

/// Round the four tables of a 2 x 2 store, always the same way: trays that follow it can come to
/// stand in a ring, each on the segment that the next one needs.
#[derive(Clone, Copy, PartialEq, Eq, Debug)]
pub struct Turning;

impl WayFinder for Turning {
    ghost first = { λ _ _ _. 0 };

    ghost way = { λ _ t _ _. turning_way t };

    fn first_note(&self, origin: u8, destination: u8) -> u32 {
        0
    }

    fn way(&self, table: u8, destination: u8, note: u32) -> Option<(Side, u32)> {
        match table {
            0 => Some((Side::East, 0)),
            1 => Some((Side::South, 0)),
            17 => Some((Side::West, 0)),
            16 => Some((Side::North, 0)),
            _ => None,
        }
    }
}

impl Ranker for Turning {
    type Key = u16;

    ghost key = { λ _ n. turning_key n };

    fn key(&self, segment: u16) -> u16 {
        match segment {
            1 => 1,
            6 => 2,
            71 => 3,
            64 => 4,
            _ => 0,
        }
    }
}
