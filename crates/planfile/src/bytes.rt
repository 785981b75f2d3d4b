// The tests of a block's bytes, each by its place in the block. The ranges of places stand again
// where a plan is written: here they judge any byte, there they make one. A shared enum of spots
// would only stand between each range and what it means.
ghost use Rattle.std.specs.Prelude.{◌≡◌, ◌≤◌};
ghost use Rattle.map.specs.Floors.{on_floor};
ghost use Rattle.planfile.specs.Layouts.{in_body, is_there, stop_fits, head_byte_fits, entry_fits, way_byte_fits, key_byte_fits, byte_fits, body_fits};

use crate::block::{Content, Head, NO_WAY};
use crate::look::byte;
use map::side::Side;
use map::size::{has_beside, is_on_floor};

/// What follows a block's first four bytes, and the head of its file. Places count from the start
/// of the block.
#[derive(Clone, Copy)]
pub(crate) struct Body<'a> {
    pub(crate) head: Head,
    pub(crate) bytes: &'a [u8],
}

// A head is judged here for the first time: its width and height may be any numbers.
impl Head {
    fn on_floor(self, table: u8) -> bool
        ensures { result ≡ on_floor self.width self.height table }
    {
        is_on_floor(self.width, self.height, table)
    }

    fn is_there(self, segment: u16) -> bool
        ensures { result ≡ is_there self segment }
    {
        let side = Side::of_segment(segment);
        let table = u8::try_from(segment / 4);
        table.is_ok_and(|table| has_beside(self.width, self.height, table, side))
    }

    fn entry_fits(self, stop: u8, table: u8, entry: u8) -> bool
        ensures { result ≡ entry_fits self stop table entry }
    {
        entry == NO_WAY || (entry < 4 && self.on_floor(table) && table != stop)
    }

    fn way_byte_fits(self, stop: u8, place: usize, byte: u8) -> bool
        ensures { result ≡ way_byte_fits self stop place byte }
    {
        match place {
            0..=4 => byte == stop,
            8..=135 => {
                let table = (2 * (place - 8)) as u8;
                self.entry_fits(stop, table, byte / 16)
                    && self.entry_fits(stop, table + 1, byte % 16)
            }
            _ => byte == 0,
        }
    }

    fn key_byte_fits(self, part: u8, place: usize, byte: u8) -> bool
        ensures { result ≡ key_byte_fits self part place byte }
    {
        match place {
            0..=4 => byte == part,
            8..=263 => {
                byte == 0 || self.is_there(128 * u16::from(part) + ((place - 8) / 2) as u16)
            }
            _ => byte == 0,
        }
    }
}

impl Body<'_> {
    /// The byte at a place, and 0 behind the end.
    fn byte(&self, place: usize) -> u8
        ensures { result ≡ in_body self.now.bytes.now place }
    {
        byte(self.bytes, place.saturating_sub(4))
    }

    fn stop_fits(&self, place: usize) -> bool
        requires { 8 ≤ place }
        ensures { result ≡ stop_fits self.now.head self.now.bytes.now place }
    {
        let stop = self.byte(place);
        self.head.on_floor(stop) && (place == 8 || self.byte(place - 1) < stop)
    }

    fn head_byte_fits(&self, place: usize) -> bool
        ensures { result ≡ head_byte_fits self.now.head self.now.bytes.now place }
    {
        let byte = self.byte(place);
        match place {
            0..=5 => (1..=16).contains(&byte),
            6 => byte <= 64,
            8.. if place < 8 + usize::from(self.head.count) => self.stop_fits(place),
            _ => byte == 0,
        }
    }

    fn byte_fits(&self, content: Content, place: usize) -> bool
        ensures { result ≡ byte_fits self.now.head content self.now.bytes.now place }
    {
        match content {
            Content::Stops => self.head_byte_fits(place),
            Content::Ways { stop } => self.head.way_byte_fits(stop, place, self.byte(place)),
            Content::Keys { part } => self.head.key_byte_fits(part, place, self.byte(place)),
        }
    }

    /// Whether each byte behind a block's first four, but for the last word, is as the layout says.
    pub(crate) fn fits(&self, content: Content) -> bool
        ensures { result ≡ body_fits self.now.head content self.now.bytes.now }
    {
        (4..508).all(|place| self.byte_fits(content, place))
    }
}
