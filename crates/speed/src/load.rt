ghost use Rattle.std.specs.Iterator.{endless};

use floor::floor::Floor;
use map::map::Map;
use promise::open_checked;
use tree::tree::Tree;

/// Entries and advances in a fixed pseudo-random order until a million of them were accepted.
pub(crate) fn run_floor(store: Map) -> u64 {
    let tree = Tree::new(&store);
    let mut floor = open_checked(store, tree, &tree).floor;
    Order { state: 1 }
        .take(200_000_000)
        .filter_map(|random| one_call(&mut floor, random))
        .take(1_000_000)
        .fold(
            0,
            |sum: u64, answer| sum.wrapping_mul(31).wrapping_add(answer),
        )
}

/// One call by a random number: a number made of its answer, where it was not refused.
fn one_call(floor: &mut Floor<Tree>, random: u32) -> Option<u64> {
    if random % 16 == 0 {
        let origin = (random / 16 % 64) as u8 * 4;
        let destination = (random / 1024 % 64) as u8 * 4;
        let entered = floor.enter(origin, destination).ok()?;
        Some(mixed(entered.tray, 1024, entered.segment))
    } else {
        let moved = floor.advance((random / 16 % 1024) as u16).ok()?;
        Some(mixed(moved.tray, 65536, moved.segment))
    }
}

fn mixed(tray: u32, factor: u64, segment: u16) -> u64 {
    u64::from(tray)
        .wrapping_mul(factor)
        .wrapping_add(u64::from(segment))
        | 1
}

/// Numbers in a fixed pseudo-random order, without end.
#[derive(Clone, Copy)]
struct Order {
    state: u64,
}

impl Iterator for Order {
    type Item = u32;

    ghost remaining = { λ _. endless };

    fn next(&mut self) -> Option<u32> {
        self.state = self
            .state
            .wrapping_mul(6364136223846793005)
            .wrapping_add(1442695040888963407);
        Some((self.state >> 33) as u32)
    }
}
