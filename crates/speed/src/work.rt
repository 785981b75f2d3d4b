use map::map::Map;
use orders::ranker::Ranker;
use plancheck::pass::Pass;
use routes::refusal::Refusal;
use tree::tree::Tree;

pub(crate) fn sum_of(verdict: Result<Pass, Refusal>) -> u64 {
    match verdict {
        Ok(pass) => {
            u64::from(pass.pairs)
                .wrapping_mul(1_000_000_000)
                .wrapping_add(u64::from(pass.segments).wrapping_mul(1_000))
                .wrapping_add(u64::from(pass.longest))
        }
        Err(refusal) => u64::from(refusal.step),
    }
}

/// A number that depends on the whole tree: the way and the keys at every table.
pub(crate) fn far_key(tree: &Tree) -> u64 {
    (0..256u16)
        .map(|table| tree.key(table * 4))
        .fold(0, |sum: u64, key| {
            sum.wrapping_mul(31)
                .wrapping_add(u64::from(key.first) * 256 + u64::from(key.second))
        })
}

/// 16 by 16 tables, every fourth a stop.
pub(crate) fn full_store() -> Option<Map> {
    let mut map = Map::new(16, 16).ok()?;
    for table in (0..=255u8).step_by(4) {
        map.mark_stop(table).ok()?;
    }
    Some(map)
}

/// The same tables as one corridor: every second row is closed but for one table, at its east and
/// west end in turn.
pub(crate) fn corridor_store() -> Option<Map> {
    let mut map = full_store()?;
    for row in 0..8u8 {
        // an odd row is open in the west, and any other in the east
        let from = row % 2;
        for column in 0..15u8 {
            map.close_table(32 * row + 16 + from + column).ok()?;
        }
    }
    Some(map)
}
