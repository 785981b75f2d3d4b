// Whether every stop of a map is reached from every other by a plan.
#![tactic(auto)]

ghost use Rattle.std.specs.Prelude.{◌≡◌, ◌+◌, ◌≤◌, IfOk};
ghost use Rattle.map.specs.Layouts.{layout};
ghost use Rattle.routes.specs.Routings.{routing};
ghost use Rattle.plancheck.specs.Pairs.{stop_at, facing, pairs_of};
ghost use Rattle.plancheck.specs.Totals.{Few};
ghost use Rattle.plancheck.specs.Plans.{check_pairs, plan_check};
ghost use Rattle.plancheck.specs.Decisions.{Decided};
ghost use Rattle.plancheck.specs.Wanted.{AllWanted};
ghost use Rattle.plancheck.specs.Questions.{routing_in};

pub mod pass;
mod question;

use map::map::Map;
use orders::ranker::Ranker;
use pass::Pass;
use question::Question;
use routes::refusal::Refusal;
use routes::route::check_route;
use ways::finder::WayFinder;

// Map, way-finder and ranker one by one, as callers have them; within, `Question` holds them.
/// Checks the route of each pair of different stops, origins rising, then destinations rising:
/// what they add up to, or the first that is refused.
pub fn check<W: WayFinder, R: Ranker>(map: &Map, finder: &W, ranker: &R) -> Result<Pass, Refusal>
    ensures is { result ≡ plan_check (routing W.WayFinder R.Ranker R.Key.KeyOrder map.now finder.now ranker.now) }
    ensures decided { Decided (routing W.WayFinder R.Ranker R.Key.KeyOrder map.now finder.now ranker.now) result }
    ensures pairs { AllWanted (layout map.now) }
{
    let question = Question {
        map,
        finder,
        ranker,
    };
    let mut pass = Pass {
        pairs: 0,
        segments: 0,
        longest: 0,
    };
    for origin in 0..=255u8 {
        pass = question.check_from(origin, pass)?;
    }
    Ok(pass)
}

// Table by table: a list of the stops would be a second copy of the map's flags.
impl<W: WayFinder, R: Ranker> Question<'_, W, R> {
    /// The routes from the origin, where it is a stop, to each other stop, counted onto what passed
    /// before.
    fn check_from(&self, origin: u8, before: Pass) -> Result<Pass, Refusal>
        requires { Few before 65280 }
        ensures counted { IfOk result (λ p. Few p (before.pairs + 256)) }
        ensures is { result ≡ check_pairs (routing_in W.WayFinder R.Ranker R.Key.KeyOrder self.now) before (pairs_of (layout self.now.map.now) origin) }
    {
        let mut pass = before;
        if self.map.is_stop(origin) {
            for destination in 0..=255u8 {
                pass = self.check_pair(origin, destination, pass)?;
            }
        }
        Ok(pass)
    }

    /// The route of the pair, where the destination is another stop, counted onto what passed
    /// before.
    fn check_pair(&self, origin: u8, destination: u8, before: Pass) -> Result<Pass, Refusal>
        requires { Few before 65535 }
        ensures counted { IfOk result (λ p. Few p (before.pairs + 1)) }
        ensures is { result ≡ check_pairs (routing_in W.WayFinder R.Ranker R.Key.KeyOrder self.now) before (facing origin (stop_at (layout self.now.map.now) destination)) }
    {
        if !self.map.is_stop(destination) || destination == origin {
            return Ok(before);
        }
        let length = check_route(self.map, self.finder, self.ranker, origin, destination)?;
        Ok(Pass {
            pairs: before.pairs + 1,
            segments: before.segments + u32::from(length),
            longest: before.longest.max(length),
        })
    }
}
