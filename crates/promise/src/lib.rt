// A floor opened on a map, a way-finder and a ranker, with what the check says of them and all
// that is promised of what passed.
#![tactic(auto)]

ghost use Rattle.std.specs.Prelude.{◌≡◌, true, ◌↔◌, is_ok};
ghost use Rattle.routes.specs.Routings.{routing};
ghost use Rattle.plancheck.specs.Plans.{plan_check};
ghost use Rattle.floor.specs.Floors.{empty_floor};
ghost use Rattle.map.specs.Layouts.{layout};
ghost use Rattle.promise.specs.Floors.{FlowsAfterPass};
ghost use Rattle.promise.specs.Trees.{tree_routing, StopsJoined, EveryTreePasses};

use floor::floor::Floor;
use map::map::Map;
use orders::ranker::Ranker;
use plancheck::check;
use plancheck::pass::Pass;
use routes::refusal::Refusal;
use tree::tree::Tree;
use ways::finder::WayFinder;

/// An empty floor, and what the check said of the map, the way-finder and the ranker.
#[derive(Drop)]
pub struct Opened<W> {
    pub floor: Floor<W>,
    pub verdict: Result<Pass, Refusal>,
}

/// Opens an empty floor, whether the check passes or not. Where it passes, the floor never comes
/// to a standstill, whatever entries and advances follow.
pub fn open_checked<W: WayFinder, R: Ranker>(map: Map, finder: W, ranker: &R) -> Opened<W>
    ensures floor { result.floor ≡ empty_floor map finder }
    ensures verdict { result.verdict ≡ plan_check (routing W.WayFinder R.Ranker R.Key.KeyOrder map finder ranker.now) }
    ensures tree { EveryTreePasses }
    ensures flows { FlowsAfterPass (routing W.WayFinder R.Ranker R.Key.KeyOrder map finder ranker.now) }
{
    let verdict = check(&map, &finder, ranker);
    Opened {
        floor: Floor::open(map, finder),
        verdict,
    }
}

/// Checks the tree plan of the map: it passes exactly where open links join every two stops.
pub fn check_tree(map: &Map) -> Result<Pass, Refusal>
    ensures is { result ≡ plan_check (tree_routing (layout map.now)) }
    ensures joined { (is_ok result ≡ true) ↔ StopsJoined (layout map.now) }
{
    let tree = Tree::new(map);
    check(map, &tree, &tree)
}
