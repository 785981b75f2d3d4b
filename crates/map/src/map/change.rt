ghost use Rattle.std.specs.Prelude.{◌≡◌, true, false};
ghost use Rattle.map.specs.Layouts.{layout};
ghost use Rattle.map.specs.Changes.{told, after, made, new_map, table_change, segment_change, close_table, reopen_table, close_segment, reopen_segment, mark_stop, unmark_stop};
ghost use Rattle.map.specs.Promises.{TableSet, SegmentSet, StopSet, Bare, Changed, Made};

use super::Map;
use crate::refusal::Refusal;
use crate::size::Size;

const MOST_STOPS: u8 = 64;

impl Map {
    /// A map with no stops and nothing closed.
    pub fn new(width: u8, height: u8) -> Result<Map, Refusal>
        ensures outcome { made result ≡ new_map width height }
        ensures bare { Made result (Bare width height) }
    {
        let size = Size::new(width, height)?;
        Ok(Map {
            size,
            tables: [false; 256],
            segments: [false; 1024],
            stops: [false; 256],
            count: 0,
        })
    }

    pub fn close_table(&mut self, table: u8) -> Result<(), Refusal>
        ensures outcome { result ≡ told (close_table (layout self.old) table) }
        ensures later { layout self.new ≡ after (layout self.old) (close_table (layout self.old) table) }
        ensures only { Changed result (TableSet true table) (layout self.old) (layout self.new) }
    {
        self.set_table(table, true)
    }

    pub fn reopen_table(&mut self, table: u8) -> Result<(), Refusal>
        ensures outcome { result ≡ told (reopen_table (layout self.old) table) }
        ensures later { layout self.new ≡ after (layout self.old) (reopen_table (layout self.old) table) }
        ensures only { Changed result (TableSet false table) (layout self.old) (layout self.new) }
    {
        self.set_table(table, false)
    }

    pub fn close_segment(&mut self, segment: u16) -> Result<(), Refusal>
        ensures outcome { result ≡ told (close_segment (layout self.old) segment) }
        ensures later { layout self.new ≡ after (layout self.old) (close_segment (layout self.old) segment) }
        ensures only { Changed result (SegmentSet true segment) (layout self.old) (layout self.new) }
    {
        self.set_segment(segment, true)
    }

    pub fn reopen_segment(&mut self, segment: u16) -> Result<(), Refusal>
        ensures outcome { result ≡ told (reopen_segment (layout self.old) segment) }
        ensures later { layout self.new ≡ after (layout self.old) (reopen_segment (layout self.old) segment) }
        ensures only { Changed result (SegmentSet false segment) (layout self.old) (layout self.new) }
    {
        self.set_segment(segment, false)
    }

    // Marking alone has a limit and a refusal for it: one call for marking and unmarking would be a
    // switch between the two.
    pub fn mark_stop(&mut self, table: u8) -> Result<(), Refusal>
        ensures outcome { result ≡ told (mark_stop (layout self.old) table) }
        ensures later { layout self.new ≡ after (layout self.old) (mark_stop (layout self.old) table) }
        ensures only { Changed result (StopSet true table) (layout self.old) (layout self.new) }
    {
        if !self.has(table) {
            return Err(Refusal::NoTable);
        }
        if self.stops[table as usize] {
            return Ok(());
        }
        if self.count >= MOST_STOPS {
            return Err(Refusal::TooManyStops);
        }
        self.stops[table as usize] = true;
        self.count += 1;
        Ok(())
    }

    pub fn unmark_stop(&mut self, table: u8) -> Result<(), Refusal>
        ensures outcome { result ≡ told (unmark_stop (layout self.old) table) }
        ensures later { layout self.new ≡ after (layout self.old) (unmark_stop (layout self.old) table) }
        ensures only { Changed result (StopSet false table) (layout self.old) (layout self.new) }
    {
        if !self.has(table) {
            return Err(Refusal::NoTable);
        }
        if !self.stops[table as usize] {
            return Ok(());
        }
        self.stops[table as usize] = false;
        self.count -= 1;
        Ok(())
    }

    // Tables and segments each by themselves: one call for both would need a type for the two, and as
    // many clauses.
    fn set_table(&mut self, table: u8, closed: bool) -> Result<(), Refusal>
        ensures outcome { result ≡ told (table_change closed (layout self.old) table) }
        ensures later { layout self.new ≡ after (layout self.old) (table_change closed (layout self.old) table) }
        ensures only { Changed result (TableSet closed table) (layout self.old) (layout self.new) }
    {
        if !self.has(table) {
            return Err(Refusal::NoTable);
        }
        self.tables[table as usize] = closed;
        Ok(())
    }

    fn set_segment(&mut self, segment: u16, closed: bool) -> Result<(), Refusal>
        ensures outcome { result ≡ told (segment_change closed (layout self.old) segment) }
        ensures later { layout self.new ≡ after (layout self.old) (segment_change closed (layout self.old) segment) }
        ensures only { Changed result (SegmentSet closed segment) (layout self.old) (layout self.new) }
    {
        if self.head(segment).is_none() {
            return Err(Refusal::NoSegment);
        }
        self.segments[segment as usize] = closed;
        Ok(())
    }
}
