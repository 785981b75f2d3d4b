/// What is known of the tray on a segment.
#[derive(Clone, Copy, PartialEq, Eq, Debug)]
pub struct Tray {
    pub number: u32,
    pub destination: u8,
    pub note: u32,
    /// Stays at 65,535.
    pub advances: u16,
}
