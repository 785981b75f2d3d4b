// The bytes of a block, each by its place in the block. The ranges of places stand again where a
// plan is read: here they make each byte, there they judge any. A shared enum of spots would only
// stand between each range and what it means. In the blocks of ways and of keys, and at a block's
// start, places are compared: by a `match` on ranges a plan by row-first takes nearly half as long
// again to write.
ghost use Rattle.std.specs.Prelude.{◌≡◌, ◌+◌, ◌<◌, ◌≤◌, length};
ghost use Rattle.planwriter.specs.Files.{entry_number, head_byte, way_byte, key_half, key_byte, content_byte, content_of, block_byte};
ghost use Rattle.planwriter.specs.Written.{source_in};

use crate::source::Source;
use map::side::Side;
use planfile::block::{Content, NO_WAY};
use ways::finder::WayFinder;

fn entry_number(way: Option<(Side, u32)>) -> u8
    ensures is { result ≡ entry_number way }
    ensures small { result < 16 }
{
    way.map_or(NO_WAY, |(side, _)| side.number())
}

fn key_half(place: usize, key: u16) -> u8
    ensures { result ≡ key_half place key }
{
    key.to_be_bytes()[place % 2]
}

impl<W: WayFinder> Source<'_, W> {
    /// The entry of a table for a stop.
    fn entry(&self, stop: u8, table: u8) -> u8
        ensures is { result ≡ (source_in W.WayFinder self.now).entry stop table }
        ensures small { result < 16 }
    {
        if self.map.has(table) && table != stop {
            let note = self.finder.first_note(table, stop);
            entry_number(self.finder.way(table, stop, note))
        } else {
            NO_WAY
        }
    }

    fn key(&self, segment: u16) -> u16
        ensures { result ≡ (source_in W.WayFinder self.now).key segment }
    {
        if segment < 1024 && self.map.head(segment).is_some() {
            self.keys[segment as usize]
        } else {
            0
        }
    }

    fn head_byte(&self, place: usize) -> u8
        ensures { result ≡ head_byte (source_in W.WayFinder self.now).head (source_in W.WayFinder self.now).stops place }
    {
        let stops = self.stops.as_slice();
        match place {
            0..=4 => self.map.width(),
            5 => self.map.height(),
            6 => stops.len() as u8,
            7 => 0,
            _ => stops.get(place - 8).copied().unwrap_or(0),
        }
    }

    fn way_byte(&self, stop: u8, place: usize) -> u8
        ensures { result ≡ way_byte (source_in W.WayFinder self.now).entry stop place }
    {
        if place < 5 {
            stop
        } else if place < 8 {
            0
        } else if place < 136 {
            let table = (2 * (place - 8)) as u8;
            self.entry(stop, table) * 16 + self.entry(stop, table + 1)
        } else {
            0
        }
    }

    fn key_byte(&self, part: u8, place: usize) -> u8
        ensures { result ≡ key_byte (source_in W.WayFinder self.now).key part place }
    {
        if place < 5 {
            part
        } else if place < 8 {
            0
        } else if place < 264 {
            let segment = 128 * u16::from(part) + ((place - 8) / 2) as u16;
            key_half(place, self.key(segment))
        } else {
            0
        }
    }

    /// How many blocks the file has.
    pub(crate) fn block_count(&self) -> usize
        ensures is { result ≡ length (source_in W.WayFinder self.now).stops + 9 }
        ensures few { result ≤ 73 }
    {
        self.stops.len() + 9
    }

    /// What a block is to hold, by its number.
    pub(crate) fn content_of(&self, number: u8) -> Content
        ensures { result ≡ content_of (source_in W.WayFinder self.now).stops number }
    {
        let stops = self.stops.as_slice();
        if number == 0 {
            return Content::Stops;
        }
        match stops.get(usize::from(number) - 1) {
            Some(&stop) => Content::Ways { stop },
            None => Content::Keys {
                part: number - (stops.len() as u8 + 1),
            },
        }
    }

    /// The byte at a place behind a block's first four bytes.
    fn content_byte(&self, content: Content, place: usize) -> u8
        ensures { result ≡ content_byte (source_in W.WayFinder self.now) content place }
    {
        match content {
            Content::Stops => self.head_byte(place),
            Content::Ways { stop } => self.way_byte(stop, place),
            Content::Keys { part } => self.key_byte(part, place),
        }
    }

    /// The byte at a place of a block, before its last word.
    pub(crate) fn block_byte(&self, content: Content, number: u8, place: usize) -> u8
        ensures { result ≡ block_byte (source_in W.WayFinder self.now) content number place }
    {
        if place >= 4 {
            self.content_byte(content, place)
        } else {
            [content.kind(), number, 0, 0][place]
        }
    }
}
