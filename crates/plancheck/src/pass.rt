/// What a plan that passes comes to: the pairs of stops, the segments of all their routes
/// together, and those of the longest route.
#[derive(Clone, Copy, PartialEq, Eq, Debug)]
pub struct Pass {
    pub pairs: u32,
    pub segments: u32,
    pub longest: u16,
}
