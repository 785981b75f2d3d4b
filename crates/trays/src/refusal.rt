ghost use Rattle.std.specs.Prelude.{◌≡◌};
ghost use Rattle.trays.specs.Refusals.{refusal_number, refusal_segments};

pub use map::side::NO_SEGMENT;

/// Why a call of the floor is turned down. Where two numbers follow, they are the segment held
/// and the segment wanted, in the order in which an answer tells them.
// Numbers and no `Option`s, as in every answer; and pairs, since the promise's definitions match on them.
#[derive(Clone, Copy, PartialEq, Eq, Debug)]
pub enum Refusal {
    NoSegment,
    NoWay(u16, u16),
    WantedMissing(u16, u16),
    WantedClosed(u16, u16),
    NotTwoStops,
    NumbersUsedUp,
    WantedTaken(u16, u16),
    NoTray,
    TooLong,
}

impl Refusal {
    pub fn number(self) -> u8
        ensures { result ≡ refusal_number self }
    {
        // by a match: variants that hold segments have no number of their own
        match self {
            Refusal::NoSegment => 3,
            Refusal::NoWay(_, _) => 13,
            Refusal::WantedMissing(_, _) => 14,
            Refusal::WantedClosed(_, _) => 15,
            Refusal::NotTwoStops => 17,
            Refusal::NumbersUsedUp => 18,
            Refusal::WantedTaken(_, _) => 19,
            Refusal::NoTray => 20,
            Refusal::TooLong => 23,
        }
    }

    /// The segments held and wanted, where the refusal names them.
    pub fn segments(self) -> Option<(u16, u16)>
        ensures { result ≡ refusal_segments self }
    {
        match self {
            Refusal::NoWay(held, wanted)
            | Refusal::WantedMissing(held, wanted)
            | Refusal::WantedClosed(held, wanted)
            | Refusal::WantedTaken(held, wanted) => Some((held, wanted)),
            Refusal::NoSegment
            | Refusal::NotTwoStops
            | Refusal::NumbersUsedUp
            | Refusal::NoTray
            | Refusal::TooLong => None,
        }
    }
}
