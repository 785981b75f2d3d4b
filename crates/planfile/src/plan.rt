ghost use Rattle.std.specs.Prelude.{◌≡◌, Some, None, MatchResult, OnOk, slice_index};
ghost use Rattle.planfile.specs.Outcomes.{read_outcome};
ghost use Rattle.planfile.specs.Promises.{FirstFault, OneByteNamed, OneByteRefused, PlanFile, PlanHolds};
ghost use Rattle.planfile.specs.Plans.{entry_at, key_in, place_of, stop_in, way_in};

use crate::judge::judge;
use crate::look::{byte, entry_way};
use crate::refusal::Refusal;
use map::side::Side;
use orders::ranker::Ranker;
use ways::finder::WayFinder;

/// A plan in the caller's bytes: a way-finder and a ranker.
#[derive(Clone, Copy)]
pub struct WrittenPlan<'a> {
    pub(crate) file: &'a [u8],
}

impl<'a> WrittenPlan<'a> {
    /// The plan in the bytes, exactly where they are of the layout; else the first block that is not
    /// good, and the first of its reasons. A block with one byte changed is never good again.
    pub fn read(file: &'a [u8]) -> Result<WrittenPlan<'a>, Refusal>
        ensures outcome { MatchResult result (λ p. (read_outcome file.now ≡ None) × (p.file.now ≡ file.now)) (λ e. read_outcome file.now ≡ Some e) }
        ensures layout { MatchResult result (λ _. PlanFile file.now) (λ _. (PlanFile file.now → ⊥)) }
        ensures told { MatchResult result (λ _. PlanHolds file.now) (λ e. FirstFault file.now e) }
        ensures one_byte { OnOk result (OneByteRefused file.now) }
        ensures one_named { OnOk result (OneByteNamed file.now) }
    {
        judge(file)?;
        Ok(WrittenPlan { file })
    }

    pub fn width(&self) -> u8
        ensures { result ≡ slice_index self.now.file.now 4 }
    {
        byte(self.file, 4)
    }

    pub fn height(&self) -> u8
        ensures { result ≡ slice_index self.now.file.now 5 }
    {
        byte(self.file, 5)
    }

    pub fn stop_count(&self) -> u8
        ensures { result ≡ slice_index self.now.file.now 6 }
    {
        byte(self.file, 6)
    }

    /// The stop at a place of the head's rising list.
    pub fn stop(&self, i: u8) -> Option<u8>
        ensures { result ≡ stop_in self.now.file.now i }
    {
        (i < byte(self.file, 6)).then(|| byte(self.file, 8 + usize::from(i)))
    }

    /// The place of the table among the stops.
    // A loop: by `find` a way of a kept plan takes nearly five times the time.
    fn place_of(&self, table: u8) -> Option<u8>
        ensures { result ≡ place_of self.now.file.now table }
    {
        for i in 0..byte(self.file, 6) {
            if byte(self.file, 8 + usize::from(i)) == table {
                return Some(i);
            }
        }
        None
    }

    /// The entry for a table, in the block of the ways to the stop at a place.
    fn entry_at(&self, i: u8, table: u8) -> u8
        ensures { result ≡ entry_at self.now.file.now i table }
    {
        let block = usize::from(i) + 1;
        let both = byte(self.file, 512 * block + 8 + usize::from(table / 2));
        if table % 2 == 0 { both / 16 } else { both % 16 }
    }
}

/// Each way is the file's entry, and notes are 0.
impl<'a> WayFinder for WrittenPlan<'a> {
    ghost first = { λ _ _ _. 0 };

    ghost way = { λ p t d _. way_in p.file.now t d };

    fn first_note(&self, origin: u8, destination: u8) -> u32 {
        0
    }

    fn way(&self, table: u8, destination: u8, note: u32) -> Option<(Side, u32)> {
        let i = self.place_of(destination)?;
        entry_way(self.entry_at(i, table))
    }
}

/// Each key is the file's, by size.
impl<'a> Ranker for WrittenPlan<'a> {
    type Key = u16;

    ghost key = { λ p s. key_in p.file.now s };

    fn key(&self, segment: u16) -> u16 {
        if segment >= 1024 {
            return 0;
        }
        let block = usize::from(byte(self.file, 6)) + 1 + usize::from(segment / 128);
        let at = 512 * block + 8 + 2 * usize::from(segment % 128);
        u16::from_be_bytes([byte(self.file, at), byte(self.file, at + 1)])
    }
}
