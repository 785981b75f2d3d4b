ghost use Rattle.std.specs.Prelude.{◌≡◌, ◌≤◌, length};
ghost use Rattle.planfile.specs.Plans.{key_in, way_in};
ghost use Rattle.planfile.specs.Copies.{SamePlan, copy_of};

use crate::plan::WrittenPlan;
use map::side::Side;
use orders::ranker::Ranker;
use ways::finder::WayFinder;

/// A plan with bytes of its own, as many as the longest file has: for a floor that outlives the
/// caller's bytes.
#[derive(Clone, Copy)]
pub struct KeptPlan {
    // as many as any file has, since the library never allocates
    bytes: [u8; 37_376],
}

/// The bytes of a file, and zeros behind them.
fn copied(file: &[u8]) -> [u8; 37_376]
    ensures is { result ≡ copy_of file.now }
    ensures same { length file.now ≤ 37376 → SamePlan file.now result }
{
    let mut bytes = [0; 37_376];
    let count = file.len().min(37_376);
    bytes[..count].copy_from_slice(&file[..count]);
    bytes
}

impl<'a> WrittenPlan<'a> {
    /// A copy of the plan that borrows nothing. Its ways and keys are the same.
    pub fn keep(&self) -> KeptPlan
        ensures is { result.bytes ≡ copy_of self.now.file.now }
        ensures same { length self.now.file.now ≤ 37376 → SamePlan self.now.file.now result.bytes }
    {
        KeptPlan {
            bytes: copied(self.file),
        }
    }
}

impl KeptPlan {
    fn in_place(&self) -> WrittenPlan<'_>
        ensures { result.file.now ≡ self.now.bytes }
    {
        WrittenPlan { file: &self.bytes }
    }
}

impl WayFinder for KeptPlan {
    ghost first = { λ _ _ _. 0 };

    ghost way = { λ p t d _. way_in p.bytes t d };

    fn first_note(&self, origin: u8, destination: u8) -> u32 {
        self.in_place().first_note(origin, destination)
    }

    fn way(&self, table: u8, destination: u8, note: u32) -> Option<(Side, u32)> {
        self.in_place().way(table, destination, note)
    }
}

impl Ranker for KeptPlan {
    type Key = u16;

    ghost key = { λ p s. key_in p.bytes s };

    fn key(&self, segment: u16) -> u16 {
        self.in_place().key(segment)
    }
}
