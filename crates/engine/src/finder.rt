ghost use Rattle.std.specs.Prelude.{◌≡◌};
ghost use Rattle.engine.specs.Finders.{named_way, named_key, finder_first, finder_way, detoured};

use detour::detour::Detour;
use map::side::Side;
use orders::key::Pair;
use orders::ranker::Ranker;
use tree::tree::Tree;
use ways::finder::WayFinder;
use ways::rows::RowFirst;

/// A plan that has a name: a way-finder, and its ranker.
// An enum, since a script says while it runs which plan is meant, and there is no heap for a box.
#[derive(Clone, Copy)]
pub enum Named {
    ByRows(RowFirst),
    ByTree(Tree),
}

impl WayFinder for Named {
    ghost first = { λ _ _ _. 0 };

    ghost way = { λ w t d _. named_way w t d };

    fn first_note(&self, origin: u8, destination: u8) -> u32 {
        match self {
            Named::ByRows(rows) => rows.first_note(origin, destination),
            Named::ByTree(tree) => tree.first_note(origin, destination),
        }
    }

    fn way(&self, table: u8, destination: u8, note: u32) -> Option<(Side, u32)> {
        match self {
            Named::ByRows(rows) => rows.way(table, destination, note),
            Named::ByTree(tree) => tree.way(table, destination, note),
        }
    }
}

impl Ranker for Named {
    type Key = Pair<u16, u16>;

    ghost key = { named_key };

    fn key(&self, segment: u16) -> Pair<u16, u16> {
        match self {
            Named::ByRows(rows) => rows.key(segment),
            Named::ByTree(tree) => tree.key(segment),
        }
    }
}

/// The way-finder of a plan: the named plan's, with up to three detours, one over the other.
// A variant for each number of detours, since a box in a detour would need the heap; and an arm for
// each, since no function may hand out a `&dyn WayFinder` that it made.
#[derive(Clone, Copy)]
pub enum Finder {
    Bare(Named),
    Once(Detour<Named>),
    Twice(Detour<Detour<Named>>),
    Thrice(Detour<Detour<Detour<Named>>>),
}

impl WayFinder for Finder {
    ghost first = { finder_first };

    ghost way = { finder_way };

    fn first_note(&self, origin: u8, destination: u8) -> u32 {
        match self {
            Finder::Bare(named) => named.first_note(origin, destination),
            Finder::Once(detour) => detour.first_note(origin, destination),
            Finder::Twice(detour) => detour.first_note(origin, destination),
            Finder::Thrice(detour) => detour.first_note(origin, destination),
        }
    }

    fn way(&self, table: u8, destination: u8, note: u32) -> Option<(Side, u32)> {
        match self {
            Finder::Bare(named) => named.way(table, destination, note),
            Finder::Once(detour) => detour.way(table, destination, note),
            Finder::Twice(detour) => detour.way(table, destination, note),
            Finder::Thrice(detour) => detour.way(table, destination, note),
        }
    }
}

impl Finder {
    /// With one detour more, which has no vias, where there are not three already.
    pub(crate) fn detoured(self) -> Option<Finder>
        ensures { result ≡ detoured self }
    {
        match self {
            Finder::Bare(named) => Some(Finder::Once(Detour::over(named))),
            Finder::Once(detour) => Some(Finder::Twice(Detour::over(detour))),
            Finder::Twice(detour) => Some(Finder::Thrice(Detour::over(detour))),
            Finder::Thrice(_) => None,
        }
    }
}
