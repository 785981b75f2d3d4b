ghost use Rattle.std.specs.Prelude.{◌≡◌, ◌%◌, ◌<◌};
ghost use Rattle.map.specs.Sides.{side_number, side_of, opposite, segment, side_outcome};

/// A side of a table, with its neighbour there, and the side's number.
#[derive(Clone, Copy, PartialEq, Eq, Debug)]
pub enum Side {
    North = 0,
    East = 1,
    South = 2,
    West = 3,
}

/// The sides by their numbers.
pub const SIDES: [Side; 4] = [Side::North, Side::East, Side::South, Side::West];

/// Stands for no segment in an answer: the product's rule, in place of an `Option`.
pub const NO_SEGMENT: u16 = 65535;

/// A number that no side has.
#[derive(Clone, Copy, PartialEq, Eq, Debug)]
pub struct NoSide;

impl TryFrom<u8> for Side {
    type Error = NoSide;

    ghost try_from_gives = { λ number r. r ≡ side_outcome number };

    fn try_from(number: u8) -> Result<Side, NoSide> {
        SIDES.get(usize::from(number)).copied().ok_or(NoSide)
    }
}

impl Side {
    // A method of each type that has numbers: a trait of all would ask each for the same definition
    // and the same match.
    pub fn number(self) -> u8
        ensures is { result ≡ side_number self }
        ensures small { result < 4 }
    {
        self as u8
    }

    /// The side on which the segment of this number leaves its table.
    pub fn of_segment(segment: u16) -> Side
        ensures { result ≡ side_of (segment % 4) }
    {
        // A match: a look-up in `SIDES` makes checks and floors slower by a tenth.
        match segment % 4 {
            0 => Side::North,
            1 => Side::East,
            2 => Side::South,
            _ => Side::West,
        }
    }

    pub fn opposite(self) -> Side
        ensures { result ≡ opposite self }
    {
        match self {
            Side::North => Side::South,
            Side::East => Side::West,
            Side::South => Side::North,
            Side::West => Side::East,
        }
    }

    // A plain number: calls take and answer segments so, and any number may be asked about.
    /// The number of the segment that leaves the table on this side.
    pub fn segment_from(self, table: u8) -> u16
        ensures is { result ≡ segment table self }
        ensures small { result < 1024 }
    {
        4 * u16::from(table) + u16::from(self.number())
    }
}
