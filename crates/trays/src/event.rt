use crate::refusal::Refusal;

/// A call that may change the floor.
#[derive(Clone, Copy, PartialEq, Eq, Debug)]
pub enum Call {
    /// Of an origin and a destination.
    Enter(u8, u8),
    /// Of a segment.
    Advance(u16),
}

/// A call with its outcome: three cases, and no `Result` beside the call, since the promise's
/// definitions speak of these three.
#[derive(Clone, Copy, PartialEq, Eq, Debug)]
pub enum Event {
    Refused(Call, Refusal),
    /// Origin and destination; the answer's tray and segment.
    Entered(u8, u8, u32, u16),
    /// The segment named; the answer's tray, advances and new segment.
    Advanced(u16, u32, u16, u16),
}
