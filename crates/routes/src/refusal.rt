ghost use Rattle.std.specs.Prelude.{◌≡◌};
ghost use Rattle.routes.specs.Refusals.{reason_number};

pub use map::side::NO_SEGMENT;

/// Why a step of a route is refused, with the reason's number.
#[derive(Clone, Copy, PartialEq, Eq, Debug)]
pub enum Reason {
    NoWay = 13,
    NoSegment = 14,
    Closed = 15,
    NotRising = 16,
}

impl Reason {
    // Not a `From`: where it is told, `number` says what is told of it.
    pub fn number(self) -> u8
        ensures { result ≡ reason_number self }
    {
        self as u8
    }
}

/// Why the route from the origin to the destination is refused, at which step, and the segments
/// held and wanted there.
#[derive(Clone, Copy, PartialEq, Eq, Debug)]
pub struct Refusal {
    pub reason: Reason,
    pub origin: u8,
    pub destination: u8,
    pub step: u16,
    pub held: u16,
    pub wanted: u16,
}
