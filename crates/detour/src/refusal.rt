ghost use Rattle.std.specs.Prelude.{◌≡◌};
ghost use Rattle.detour.specs.Vias.{refusal_number};

/// Why a via is not added or removed, and its number.
#[derive(Clone, Copy, PartialEq, Eq, Debug)]
pub enum Refusal {
    NotThreeTables = 5,
    HasVia = 6,
    NoPlace = 7,
    NoVia = 8,
}

impl Refusal {
    // Not a `From`: where it is told, `number` says what is told of it.
    pub fn number(self) -> u8
        ensures { result ≡ refusal_number self }
    {
        self as u8
    }
}
