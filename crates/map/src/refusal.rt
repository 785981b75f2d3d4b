ghost use Rattle.std.specs.Prelude.{◌≡◌};
ghost use Rattle.map.specs.Refusals.{refusal_number};

/// Why a call of the map is turned down, with its number.
#[derive(Clone, Copy, PartialEq, Eq, Debug)]
pub enum Refusal {
    BadSize = 1,
    NoTable = 2,
    NoSegment = 3,
    TooManyStops = 4,
}

impl Refusal {
    // Not a `From`: where it is told, `number` says what is told of it.
    pub fn number(self) -> u8
        ensures { result ≡ refusal_number self }
    {
        self as u8
    }
}
