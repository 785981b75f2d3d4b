ghost use Rattle.std.specs.Prelude.{◌≡◌};
ghost use Rattle.planfile.specs.Refusals.{refusal_number, refusal_block};

/// Why a plan is not read or not written. The first four are of reading, and all but the first of
/// these name their block.
#[derive(Clone, Copy, PartialEq, Eq, Debug)]
pub enum Refusal {
    BadLength,
    BadSum { block: u8 },
    BadFront { block: u8 },
    BadContent { block: u8 },
    ShortBuffer,
    WrongKeys,
}

impl Refusal {
    pub fn number(self) -> u8
        ensures { result ≡ refusal_number self }
    {
        // by a match: variants that hold a block have no number of their own
        match self {
            Refusal::BadLength => 9,
            Refusal::BadSum { .. } => 10,
            Refusal::BadFront { .. } => 11,
            Refusal::BadContent { .. } => 12,
            Refusal::ShortBuffer => 21,
            Refusal::WrongKeys => 22,
        }
    }

    /// The block that is named: a length names the first.
    pub fn block(self) -> Option<u8>
        ensures { result ≡ refusal_block self }
    {
        match self {
            Refusal::BadLength => Some(0),
            Refusal::BadSum { block }
            | Refusal::BadFront { block }
            | Refusal::BadContent { block } => Some(block),
            Refusal::ShortBuffer | Refusal::WrongKeys => None,
        }
    }
}
