ghost use Rattle.std.specs.Prelude.{◌<◌};

use engine::finder::Finder;
use engine::session::Session;
use engine::store::Store;
use floor::floor::Floor;
use map::map::Map;
use map::side::Side;
use std::fmt;
use std::fmt::Write;

/// A picture of the map: its tables in rows, and between them which ways are open. Where a floor
/// is open, its trays stand on their ways, and below is told which they are.
#[derive(Clone, Copy)]
pub struct Picture<'a>(pub &'a Session);

/// What is drawn: a map, and the floor that is open on it.
#[derive(Clone, Copy)]
struct Scene<'a> {
    map: &'a Map,
    floor: Option<&'a Floor<Finder>>,
}

/// A row of the tables that the scene shows.
#[derive(Clone, Copy)]
struct Row<'a> {
    scene: Scene<'a>,
    number: u8,
    ghost within: { number < 16 },
}

/// Which of the two segments between neighbours are meant.
#[derive(Clone, Copy)]
enum Ways {
    Both,
    Out,
    Back,
    Neither,
}

const LEGEND: &str =
    "o table, S stop, X closed table, # closed stop; - | open both ways, > < ^ v open one way\n";

/// Which of the segments from the table to its neighbour on the side, and back, are as asked.
fn between<F: Fn(u16) -> bool>(map: &Map, table: u8, side: Side, is_so: F) -> Ways
    requires { F.IsAlwaysCallable is_so }
{
    let Some(neighbour) = map.beside(table, side) else {
        return Ways::Neither;
    };
    let out = is_so(side.segment_from(table));
    let back = is_so(side.opposite().segment_from(neighbour));
    match (out, back) {
        (true, true) => Ways::Both,
        (true, false) => Ways::Out,
        (false, true) => Ways::Back,
        (false, false) => Ways::Neither,
    }
}

impl Scene<'_> {
    fn has_tray(&self, segment: u16) -> bool {
        self.floor.is_some_and(|floor| floor.look(segment).is_ok())
    }

    fn trays(&self, table: u8, side: Side) -> Ways {
        between(self.map, table, side, |segment| self.has_tray(segment))
    }

    fn open_ways(&self, table: u8, side: Side) -> Ways {
        between(self.map, table, side, |segment| self.map.is_open(segment))
    }

    /// What is drawn between the table and its neighbour in the west.
    fn westward(&self, table: u8) -> &'static str {
        match self.trays(table, Side::West) {
            Ways::Both => "**",
            Ways::Out => "<*",
            Ways::Back => "*>",
            Ways::Neither => match self.open_ways(table, Side::West) {
                Ways::Both => "--",
                Ways::Out => "<-",
                Ways::Back => "->",
                Ways::Neither => "  ",
            },
        }
    }

    /// What is drawn between the table and its neighbour in the south.
    fn southward(&self, table: u8) -> &'static str {
        match self.trays(table, Side::South) {
            Ways::Both | Ways::Out | Ways::Back => "*",
            Ways::Neither => match self.open_ways(table, Side::South) {
                Ways::Both => "|",
                Ways::Out => "v",
                Ways::Back => "^",
                Ways::Neither => " ",
            },
        }
    }

    fn cell(&self, table: u8) -> &'static str {
        match (self.map.is_stop(table), self.map.is_table_closed(table)) {
            (false, false) => "o",
            (true, false) => "S",
            (false, true) => "X",
            (true, true) => "#",
        }
    }

    fn write_columns<W: fmt::Write>(&self, f: &mut fmt::Formatter<W>) -> fmt::Result {
        f.write_str("   ")?;
        for column in (0..16u8).filter(|column| self.map.has(*column)) {
            write!(f, "{column:>3}")?;
        }
        f.write_str("\n")
    }

    /// The tray on the segment, where there is one, with the tables that it goes from and to.
    fn write_tray<W: fmt::Write>(
        &self,
        floor: &Floor<Finder>,
        segment: u16,
        f: &mut fmt::Formatter<W>,
    ) -> fmt::Result {
        let (Some(head), Ok(tray)) = (self.map.head(segment), floor.look(segment)) else {
            return Ok(());
        };
        write!(
            f,
            "tray {} on segment {segment}, from {} to {head}, destination {}\n",
            tray.number,
            segment / 4,
            tray.destination
        )
    }

    fn write_trays<W: fmt::Write>(&self, f: &mut fmt::Formatter<W>) -> fmt::Result {
        let Some(floor) = self.floor else {
            return Ok(());
        };
        f.write_str("* tray: *> eastward, <* westward\n")?;
        for segment in 0..1024u16 {
            self.write_tray(floor, segment, f)?;
        }
        Ok(())
    }
}

impl fmt::Display for Scene<'_> {
    fn fmt<W: fmt::Write>(&self, f: &mut fmt::Formatter<W>) -> fmt::Result {
        self.write_columns(f)?;
        for number in 0..16u8 {
            let row = Row {
                scene: *self,
                number,
            };
            write!(f, "{row}")?;
        }
        f.write_str(LEGEND)?;
        self.write_trays(f)
    }
}

impl Row<'_> {
    /// What is drawn of each table in the row: what is before it, and its mark.
    fn write<'a, W: fmt::Write, F: Fn(u8) -> (&'a str, &'a str)>(
        &self,
        drawn: F,
        f: &mut fmt::Formatter<W>,
    ) -> fmt::Result
        requires { F.IsAlwaysCallable drawn }
    {
        for column in 0..16u8 {
            let table = 16 * self.number + column;
            if self.scene.map.has(table) {
                let (before, mark) = drawn(table);
                f.write_str(before)?;
                f.write_str(mark)?;
            }
        }
        f.write_str("\n")
    }

    fn write_tables<W: fmt::Write>(&self, f: &mut fmt::Formatter<W>) -> fmt::Result {
        write!(f, "{:>3}", self.number)?;
        self.write(
            |table| (self.scene.westward(table), self.scene.cell(table)),
            f,
        )
    }

    fn write_links<W: fmt::Write>(&self, f: &mut fmt::Formatter<W>) -> fmt::Result {
        f.write_str("   ")?;
        self.write(|table| ("  ", self.scene.southward(table)), f)
    }
}

impl fmt::Display for Row<'_> {
    fn fmt<W: fmt::Write>(&self, f: &mut fmt::Formatter<W>) -> fmt::Result {
        let first = 16 * self.number;
        if self.scene.map.has(first) {
            self.write_tables(f)?;
        }
        if self.scene.map.beside(first, Side::South).is_some() {
            self.write_links(f)?;
        }
        Ok(())
    }
}

impl fmt::Display for Picture<'_> {
    fn fmt<W: fmt::Write>(&self, f: &mut fmt::Formatter<W>) -> fmt::Result {
        let Store { map, floor, .. } = &self.0.store;
        match map {
            None => Ok(()),
            Some(map) => {
                let floor = floor.as_ref();
                write!(f, "{}", Scene { map, floor })
            }
        }
    }
}
