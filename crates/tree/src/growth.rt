ghost use Rattle.std.specs.Prelude.{◌≡◌, ℕ, suc, ◌+◌, ◌<◌, ◌≤◌, true, Some, None};
ghost use Rattle.map.specs.Layouts.{layout};
ghost use Rattle.links.specs.Links.{near, present};
ghost use Rattle.links.specs.Groups.{RootOf};
ghost use Rattle.links.specs.Trees.{root_of, depth};
ghost use Rattle.tree.specs.Growths.{root_in, depth_in, placed, count, reached, Sound, Spreading, Seen, Kept, Swept};

use crate::near::{is_present, near};
use arrayvec::ArrayVec;
use map::map::Map;
use map::side::{SIDES, Side};

/// What is known of a table that was reached.
#[derive(Clone, Copy)]
pub struct Mark {
    root: u8,
    depth: u8,
}

/// The marks of the tables, and those reached so far in the order in which they were reached:
/// nothing on the heap.
#[derive(Drop)]
pub struct Growth {
    marks: [Option<Mark>; 256],
    queue: ArrayVec<u8, 256>,
}

// The map is passed along: kept in the struct, each clause would have to say that it stays. So are
// the root, which is of one group, and the place, which is of one table: they change from call to
// call.
impl Growth {
    /// The root of the table, once it was reached.
    pub(crate) fn root(&self, table: u8) -> Option<u8>
        ensures { result ≡ root_in self.now table }
    {
        self.marks[table as usize].map(|mark| mark.root)
    }

    /// Its depth, or 0 before it was reached.
    pub(crate) fn depth(&self, table: u8) -> u8
        ensures { result ≡ depth_in self.now table }
    {
        self.marks[table as usize].map_or(0, |mark| mark.depth)
    }

    // The table joins at the end of the queue.
    fn reach(&mut self, table: u8, root: u8, depth: u8)
        requires { count self.old < 256 }
        ensures { self.new ≡ reached self.old table root depth }
    {
        self.marks[table as usize] = Some(Mark { root, depth });
        self.queue.push(table);
    }

    fn placed(&self, place: usize) -> u8
        requires { place < count self.now }
        ensures { result ≡ placed self.now place }
    {
        self.queue[place]
    }

    // Reaches the neighbour over the link on that side of the table at this place of the queue.
    fn visit(&mut self, map: &Map, root: u8, place: usize, side: Side)
        requires spreading { Spreading (layout map.now) root place self.old }
        requires within { place < count self.old }
        ensures spreading { Spreading (layout map.now) root place self.new }
        ensures kept { Kept self.old self.new }
        ensures seen { Seen (layout map.now) root place side self.new }
    {
        let table = self.placed(place);
        let Some(other) = near(map, table, side) else {
            return;
        };
        if self.root(other).is_none() {
            let depth = self.depth(table) + 1;
            self.reach(other, root, depth);
        }
    }

    // Reaches the neighbours of the table at this place of the queue.
    fn look_around(&mut self, map: &Map, root: u8, place: usize)
        requires spreading { Spreading (layout map.now) root place self.old }
        requires within { place < count self.old }
        ensures spreading { Spreading (layout map.now) root (suc place) self.new }
        ensures kept { Kept self.old self.new }
    {
        for side in SIDES {
            self.visit(map, root, place, side);
        }
    }

    // Reaches the group of the root, each table from the first taken from the queue that is next
    // to it: in the queue depths never fall.
    fn spread(&mut self, map: &Map, root: u8)
        requires sound { Sound (layout map.now) (count self.old) self.old }
        requires fresh { root_in self.old root ≡ None }
        requires there { present (layout map.now) root ≡ true }
        requires lowest { RootOf (near (layout map.now)) root root }
        ensures sound { Sound (layout map.now) (count self.new) self.new }
        ensures kept { Kept self.old self.new }
        ensures own { root_in self.new root ≡ Some root }
    {
        let mut place = self.queue.len();
        self.reach(root, root, 0);
        // a while, since the queue grows under it
        while place < self.queue.len() {
            self.look_around(map, root, place);
            place += 1;
        }
    }

    // Reaches the group of the table, where it is in one that was not reached: the first table of
    // a group that is met is its lowest.
    fn reach_group(&mut self, map: &Map, table: u8)
        requires { Swept (layout map.now) table self.old }
        ensures { Swept (layout map.now) (table + 1) self.new }
    {
        if is_present(map, table) && self.root(table).is_none() {
            self.spread(map, table);
        }
    }
}

/// The root and the depth of each table.
pub fn grow(map: &Map) -> Growth
    ensures roots { (t : ℕ) → root_in result t ≡ root_of (layout map.now) t }
    ensures depths { (t : ℕ) → depth_in result t ≡ depth (layout map.now) t }
{
    let mut growth = Growth {
        marks: [None; 256],
        queue: ArrayVec::new(),
    };
    for table in 0..=255u8 {
        growth.reach_group(map, table);
    }
    growth
}
