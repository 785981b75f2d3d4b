ghost use Rattle.std.specs.Prelude.{◌≡◌};
ghost use Rattle.map.specs.Layouts.{layout};
ghost use Rattle.links.specs.Links.{near};
ghost use Rattle.links.specs.Trees.{leads_up, up_side};
ghost use Rattle.tree.specs.Growths.{depth_in};
ghost use Rattle.tree.specs.Nodes.{up_in, node_in};

use crate::growth::Growth;
use crate::near::near;
use map::map::Map;
use map::side::{SIDES, Side};

/// The parent of a table, and the side towards it.
#[derive(Clone, Copy)]
pub struct Up {
    pub side: Side,
    pub parent: u8,
}

/// A table in its tree: its root, its depth, and the way up. The depth has 16 bits, as in a key,
/// and is 0 in no group, by the definition.
#[derive(Clone, Copy)]
pub struct Node {
    pub root: Option<u8>,
    pub depth: u16,
    pub up: Option<Up>,
}

/// What decides which neighbour is a table's parent: the map, and the depths of its tables.
#[derive(Clone, Copy)]
pub struct Upward<'a> {
    pub map: &'a Map,
    pub growth: &'a Growth,
}

impl Upward<'_> {
    // Whether the neighbour over the link on that side is nearer to the root.
    fn is_nearer(&self, table: u8, side: Side) -> bool
        ensures { result ≡ leads_up (near (layout self.now.map.now)) (depth_in self.now.growth.now) table side }
    {
        let depth = u16::from(self.growth.depth(table));
        let other = near(self.map, table, side);
        other.is_some_and(|other| u16::from(self.growth.depth(other)) + 1 == depth)
    }

    // The side of the table's parent.
    fn side(&self, table: u8) -> Option<Side>
        ensures { result ≡ up_side (near (layout self.now.map.now)) (depth_in self.now.growth.now) table }
    {
        SIDES
            .iter()
            .copied()
            .find(|side| self.is_nearer(table, *side))
    }

    // The side of the table's parent, and the parent.
    fn up(&self, table: u8) -> Option<Up>
        ensures { result ≡ up_in (layout self.now.map.now) self.now.growth.now table }
    {
        let side = self.side(table)?;
        let parent = near(self.map, table, side)?;
        Some(Up { side, parent })
    }

    pub fn node(&self, table: u8) -> Node
        ensures { result ≡ node_in (layout self.now.map.now) self.now.growth.now table }
    {
        Node {
            root: self.growth.root(table),
            depth: u16::from(self.growth.depth(table)),
            up: self.up(table),
        }
    }
}
