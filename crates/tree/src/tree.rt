ghost use Rattle.std.specs.Prelude.{◌≡◌, ℕ};
ghost use Rattle.map.specs.Floors.{beside};
ghost use Rattle.map.specs.Layouts.{layout};
ghost use Rattle.links.specs.Courses.{Meaning, Leads};
ghost use Rattle.links.specs.Ways.{child_on, towards, one_group, tree_way, tree_key, key_at};
ghost use Rattle.links.specs.Words.{WaysMeant, KeysMeant};
ghost use Rattle.tree.specs.Finders.{Holds, roots_of, depths_of, sides_of, parents_of, way_by, key_by};

use crate::growth::grow;
use crate::upward::{Node, Upward};
use map::map::Map;
use map::side::Side;
use map::size::LARGEST;
use orders::key::Pair;
use orders::ranker::Ranker;
use std::array;
use ways::finder::WayFinder;

// The key of a segment that joins no table with its parent.
const OFF_TREE: Pair<u16, u16> = Pair {
    first: 2,
    second: 0,
};

/// The trees of all groups of a map: of each table its root, its depth and its parent. An array,
/// since the library has no heap.
#[derive(Clone, Copy)]
pub struct Tree {
    nodes: [Node; 256],
}

impl Tree {
    pub fn new(map: &Map) -> Tree
        ensures holds { Holds (layout map.now) result }
        ensures ways { (t d : ℕ) → way_by result t d ≡ tree_way (layout map.now) t d }
        ensures keys { (n : ℕ) → key_by result n ≡ tree_key (layout map.now) n }
        ensures meaning { Meaning (layout map.now) }
        ensures meant_ways { WaysMeant (layout map.now) }
        ensures meant_keys { KeysMeant (layout map.now) }
        ensures leads { Leads (layout map.now) }
    {
        let growth = grow(map);
        let upward = Upward {
            map,
            growth: &growth,
        };
        Tree {
            nodes: array::from_fn(|table| upward.node(table as u8)),
        }
    }

    // The table on the line from the destination to its root whose parent is the table.
    #[tactic(auto, using(crate::proofs::Climbs::climbs))]
    fn child(&self, table: u8, destination: u8) -> Option<u8>
        ensures { result ≡ child_on (parents_of self.now) 255 table destination }
    {
        let mut x = destination;
        for _ in 0..255u16 {
            let parent = self.nodes[x as usize].up?.parent;
            if parent == table {
                return Some(x);
            }
            x = parent;
        }
        None
    }

    // The side of the table on which the way to the destination goes on.
    fn side(&self, table: u8, destination: u8) -> Option<Side>
        ensures { result ≡ towards (sides_of self.now) table (child_on (parents_of self.now) 255 table destination) }
    {
        match self.child(table, destination) {
            None => self.nodes[table as usize].up.map(|up| up.side),
            Some(child) => self.nodes[child as usize].up.map(|up| up.side.opposite()),
        }
    }

    // Whether both tables are in a group, and it is one.
    fn one_group(&self, table: u8, destination: u8) -> bool
        ensures { result ≡ one_group (roots_of self.now table) (roots_of self.now destination) }
    {
        let root = self.nodes[table as usize].root;
        let other = self.nodes[destination as usize].root;
        root.is_some() && root == other
    }

    // The key of the segment that leaves the table on that side.
    fn key_at(&self, table: u8, side: Side) -> Pair<u16, u16>
        ensures { result ≡ key_at (beside 16 16) (depths_of self.now) (sides_of self.now) table side }
    {
        let node = &self.nodes[table as usize];
        if node.up.is_some_and(|up| up.side == side) {
            return Pair {
                first: 0,
                second: 255u16.saturating_sub(node.depth),
            };
        }
        // a tree has no map: neighbours are those on the largest floor
        let Some(other) = LARGEST.beside(table, side) else {
            return OFF_TREE;
        };
        let child = &self.nodes[other as usize];
        if child.up.is_some_and(|up| up.side == side.opposite()) {
            Pair {
                first: 1,
                second: child.depth,
            }
        } else {
            OFF_TREE
        }
    }
}

impl WayFinder for Tree {
    ghost first = { λ _ _ _. 0 };

    ghost way = { λ w t d _. way_by w t d };

    fn first_note(&self, origin: u8, destination: u8) -> u32 {
        0
    }

    #[tactic(auto, unfolding(links::specs::Ways::way_over))]
    fn way(&self, table: u8, destination: u8, note: u32) -> Option<(Side, u32)> {
        if table == destination {
            return None;
        }
        if !self.one_group(table, destination) {
            return None;
        }
        Some((self.side(table, destination)?, 0))
    }
}

impl Ranker for Tree {
    type Key = Pair<u16, u16>;

    ghost key = { key_by };

    #[tactic(auto, unfolding(links::specs::Ways::key_over))]
    fn key(&self, segment: u16) -> Pair<u16, u16> {
        if segment >= 1024 {
            return OFF_TREE;
        }
        self.key_at((segment / 4) as u8, Side::of_segment(segment))
    }
}
