ghost use Rattle.std.specs.Prelude.{◌≡◌, ◌++◌, length, drop, MatchResult, OnOk};
ghost use Rattle.planfile.specs.Promises.{PlanFile};
ghost use Rattle.map.specs.Layouts.{layout};
ghost use Rattle.planwriter.specs.Stops.{stops_of};
ghost use Rattle.planwriter.specs.Promises.{ReadBack, WrittenAgain};
ghost use Rattle.planwriter.specs.Files.{block_of, content_of, file_of, source_of, write_outcome};
ghost use Rattle.planwriter.specs.Written.{source_in};

use crate::source::Source;
use blocks::sum::word_sum;
use map::map::Map;
use planfile::refusal::Refusal;
use std::array;
use ways::finder::WayFinder;

impl<W: WayFinder> Source<'_, W> {
    /// A block of the file, by its number: 508 bytes, and the word that sees to the sum.
    fn block(&self, number: u8) -> [u8; 512]
        ensures { result ≡ block_of (source_in W.WayFinder self.now) (content_of (source_in W.WayFinder self.now).stops number) number }
    {
        let content = self.content_of(number);
        let front: [u8; 508] = array::from_fn(|place| self.block_byte(content, number, place));
        let last = (u32::MAX - word_sum(&front)).to_be_bytes();
        let mut block = [0; 512];
        block[..508].copy_from_slice(&front);
        block[508..].copy_from_slice(&last);
        block
    }
}

/// Writes the plan's file into the buffer, and answers its length. What stands behind the file
/// stays, and after a refusal the whole buffer is as it was. The file is of the layout; read again,
/// it gives these entries and keys; and a plan that was read is written again as it was.
// What it is given comes one by one, as callers have it: within, `Source` holds it.
pub fn write<W: WayFinder>(
    map: &Map,
    finder: &W,
    keys: &[u16],
    buffer: &mut [u8],
) -> Result<usize, Refusal>
    ensures outcome { result ≡ write_outcome (length keys.now) (length buffer.old) (length (stops_of (layout map.now))) }
    ensures later { MatchResult result (λ n. buffer.new ≡ file_of (source_of (layout map.now) (W.WayFinder.first finder.now) (W.WayFinder.way finder.now) keys.now) ++ drop n buffer.old) (λ _. buffer.new ≡ buffer.old) }
    ensures layout { OnOk result (PlanFile (file_of (source_of (layout map.now) (W.WayFinder.first finder.now) (W.WayFinder.way finder.now) keys.now))) }
    ensures back { OnOk result (ReadBack (source_of (layout map.now) (W.WayFinder.first finder.now) (W.WayFinder.way finder.now) keys.now) (file_of (source_of (layout map.now) (W.WayFinder.first finder.now) (W.WayFinder.way finder.now) keys.now))) }
    ensures again { OnOk result (WrittenAgain (layout map.now) (W.WayFinder.first finder.now) (W.WayFinder.way finder.now) keys.now) }
{
    let keys = keys.as_array::<1024>().ok_or(Refusal::WrongKeys)?;
    let source = Source::new(map, finder, keys);
    let length = 512 * source.block_count();
    if buffer.len() < length {
        return Err(Refusal::ShortBuffer);
    }
    // by place: of chunks that a loop writes, std does not say what the whole slice holds then
    for k in 0..source.block_count() {
        let at = 512 * k;
        buffer[at..at + 512].copy_from_slice(&source.block(k as u8));
    }
    Ok(length)
}
