ghost use Rattle.std.specs.Prelude.{◌≡◌};
ghost use Rattle.map.specs.Layouts.{layout};
ghost use Rattle.planwriter.specs.Stops.{stops_of};

use arrayvec::ArrayVec;
use map::map::Map;

/// The stops of the map in rising order: no map has more than 64.
pub(crate) fn stops_of(map: &Map) -> ArrayVec<u8, 64>
    ensures { result.items ≡ stops_of (layout map.now) }
{
    let mut stops = ArrayVec::new();
    // by `push`, which asks for room: `extend` with a chain answers a result that can't fail here
    for table in 0..=255 {
        if map.is_stop(table) {
            stops.push(table);
        }
    }
    stops
}
