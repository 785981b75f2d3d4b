// The struct stands in a file of its own: it imports every `ghost use` of its file.
ghost use Rattle.std.specs.Prelude.{◌≡◌};
ghost use Rattle.map.specs.Layouts.{layout};
ghost use Rattle.planwriter.specs.Stops.{stops_of};

use crate::stops::stops_of;
use arrayvec::ArrayVec;
use map::map::Map;
use ways::finder::WayFinder;

/// What is written: a floor with its stops in rising order, a way-finder and keys.
#[derive(Drop)]
pub(crate) struct Source<'a, W> {
    pub(crate) map: &'a Map,
    pub(crate) finder: &'a W,
    pub(crate) keys: &'a [u16; 1024],
    pub(crate) stops: ArrayVec<u8, 64>,
    ghost in_order: { stops.items ≡ stops_of (layout map.now) },
}

impl<'a, W: WayFinder> Source<'a, W> {
    pub(crate) fn new(map: &'a Map, finder: &'a W, keys: &'a [u16; 1024]) -> Source<'a, W>
        ensures map { result.map.now ≡ map.now }
        ensures finder { result.finder.now ≡ finder.now }
        ensures keys { result.keys.now ≡ keys.now }
    {
        let stops = stops_of(map);
        Source {
            map,
            finder,
            keys,
            stops,
        }
    }
}
