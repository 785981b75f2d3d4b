ghost use Rattle.std.specs.Prelude.{◌≡◌, ◌≤◌};
ghost use Rattle.map.specs.Floors.{on_floor, beside, head_of};
ghost use Rattle.map.specs.Layouts.{layout, on_map, beside_in, head_in, table_closed, segment_closed, is_stop, stop_count, open_in, link_open};
ghost use Rattle.map.specs.Rules.{Lawful};

use super::Map;
use crate::side::Side;

impl Map {
    pub fn width(&self) -> u8
        ensures { result ≡ (layout self.now).width }
    {
        self.size.width()
    }

    pub fn height(&self) -> u8
        ensures { result ≡ (layout self.now).height }
    {
        self.size.height()
    }

    /// Whether the table is on the floor.
    pub fn has(&self, table: u8) -> bool
        ensures { result ≡ on_map (layout self.now) table }
    {
        self.size.has(table)
    }

    /// The neighbour on that side, where both tables are on the floor.
    pub fn beside(&self, table: u8, side: Side) -> Option<u8>
        ensures { result ≡ beside_in (layout self.now) table side }
    {
        self.size.beside(table, side)
    }

    /// The table that the segment leads to, where the segment exists.
    pub fn head(&self, segment: u16) -> Option<u8>
        ensures { result ≡ head_in (layout self.now) segment }
    {
        let table = u8::try_from(segment / 4).ok()?;
        self.beside(table, Side::of_segment(segment))
    }

    pub fn is_table_closed(&self, table: u8) -> bool
        ensures { result ≡ table_closed (layout self.now) table }
    {
        self.tables[table as usize]
    }

    pub fn is_segment_closed(&self, segment: u16) -> bool
        ensures { result ≡ segment_closed (layout self.now) segment }
    {
        segment < 1024 && self.segments[segment as usize]
    }

    /// Whether a tray may ride the segment: it exists, is not closed, and neither table at its
    /// ends is.
    pub fn is_open(&self, segment: u16) -> bool
        ensures { result ≡ open_in (layout self.now) segment }
    {
        self.head(segment).is_some_and(|head| {
            !self.is_segment_closed(segment)
                && !self.tables[(segment / 4) as usize]
                && !self.tables[head as usize]
        })
    }

    /// Whether both segments between the table and its neighbour on that side are open.
    pub fn is_link_open(&self, table: u8, side: Side) -> bool
        ensures { result ≡ link_open (layout self.now) table side }
    {
        self.beside(table, side).is_some_and(|neighbour| {
            self.is_open(side.segment_from(table))
                && self.is_open(side.opposite().segment_from(neighbour))
        })
    }

    pub fn is_stop(&self, table: u8) -> bool
        ensures { result ≡ is_stop (layout self.now) table }
    {
        self.stops[table as usize]
    }

    /// How many tables are stops. The contract also tells what every map keeps.
    pub fn stop_count(&self) -> u8
        ensures is { result ≡ stop_count (layout self.now) }
        ensures lawful { Lawful (layout self.now) }
    {
        self.count
    }
}
