ghost use Rattle.std.specs.Prelude.{◌≡◌, ◌++◌, length, drop, IfOk, MatchResult};
ghost use Rattle.map.specs.Layouts.{layout};
ghost use Rattle.blocks.specs.Changes.{AllBytes};
ghost use Rattle.planfile.specs.Promises.{PlanFile};
ghost use Rattle.planfile.specs.Plans.{way_in};
ghost use Rattle.planwriter.specs.Stops.{stops_of};
ghost use Rattle.planwriter.specs.Files.{file_of, source_of, write_outcome};
ghost use Rattle.planwriter.specs.Promises.{SameFloor, keys_in};

use crate::write::write;
use map::map::Map;
use orders::ranker::Ranker;
use planfile::plan::WrittenPlan;
use planfile::refusal::Refusal;
use std::array;

/// The keys of all segments.
fn keys_of(plan: &WrittenPlan) -> [u16; 1024]
    ensures { result ≡ keys_in plan.now.file.now }
{
    array::from_fn(|segment| plan.key(segment as u16))
}

/// Writes a plan again, on a map, with its own ways and keys. On a map of its size and stops, what
/// is written are the bytes that it was read from.
pub fn rewrite(plan: &WrittenPlan, map: &Map, buffer: &mut [u8]) -> Result<usize, Refusal>
    ensures outcome { result ≡ write_outcome 1024 (length buffer.old) (length (stops_of (layout map.now))) }
    ensures later { MatchResult result (λ n. buffer.new ≡ file_of (source_of (layout map.now) (λ _ _. 0) (λ t d _. way_in plan.now.file.now t d) (keys_in plan.now.file.now)) ++ drop n buffer.old) (λ _. buffer.new ≡ buffer.old) }
    ensures again { IfOk result (λ n. (AllBytes plan.now.file.now → PlanFile plan.now.file.now → SameFloor (layout map.now) plan.now.file.now → buffer.new ≡ plan.now.file.now ++ drop n buffer.old)) }
{
    let keys = keys_of(plan);
    write(map, plan, &keys, buffer)
}
