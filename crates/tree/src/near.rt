ghost use Rattle.std.specs.Prelude.{◌≡◌};
ghost use Rattle.map.specs.Layouts.{layout};
ghost use Rattle.links.specs.Links.{near, present};

use map::map::Map;
use map::side::Side;

/// The neighbour on that side, where the link to it is open.
#[tactic(auto, unfolding(links::specs::Links::near))]
pub fn near(map: &Map, table: u8, side: Side) -> Option<u8>
    ensures { result ≡ near (layout map.now) table side }
{
    let open = map.is_link_open(table, side);
    if open { map.beside(table, side) } else { None }
}

/// Whether the table is on the floor and not closed.
pub fn is_present(map: &Map, table: u8) -> bool
    ensures { result ≡ present (layout map.now) table }
{
    map.has(table) && !map.is_table_closed(table)
}
