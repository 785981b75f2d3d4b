ghost use Rattle.std.specs.Prelude.{◌≡◌, false, None, ◌==◌};
ghost use Rattle.std.proofs.Common.{rules};

use map::side::Side;
use orders::key::KeyOrder;
use ways::finder::WayFinder;

/// A way-finder without any way. It is lawful: next to nothing passes on it.
#[derive(Clone, Copy, PartialEq, Eq, Debug)]
pub struct NoWays;

impl WayFinder for NoWays {
    ghost first = { λ _ _ _. 0 };

    ghost way = { λ _ _ _ _. None };

    fn first_note(&self, origin: u8, destination: u8) -> u32 {
        0
    }

    fn way(&self, table: u8, destination: u8, note: u32) -> Option<(Side, u32)> {
        None
    }
}

/// A kind of key of which none is before another. It is lawful too.
#[derive(Clone, Copy, PartialEq, Eq, Debug)]
pub struct Unordered {
    pub number: u16,
}

impl KeyOrder for Unordered {
    ghost before = { λ _ _. false };

    ghost same = { λ x y. (x.number == y.number) };

    ghost irreflexive = { Prim.search rules };

    ghost transitive = { Prim.search rules };

    ghost exact = { Prim.search rules };

    fn before(&self, other: &Unordered) -> bool {
        false
    }

    fn same(&self, other: &Unordered) -> bool {
        self.number == other.number
    }
}
