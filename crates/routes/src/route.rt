ghost use Rattle.std.specs.Prelude.{◌≡◌};
ghost use Rattle.routes.specs.Routings.{routing};
ghost use Rattle.routes.specs.Steps.{refused, route_check};
ghost use Rattle.routes.specs.Routes.{Exact};
ghost use Rattle.routes.specs.Holdings.{segment_of, may_follow};

use crate::refusal::{NO_SEGMENT, Reason, Refusal};
use map::map::Map;
use orders::key::KeyOrder;
use orders::ranker::Ranker;
use ways::finder::WayFinder;

// Map, way-finder and ranker come one by one, as callers have them: a tree is both of the last two.
/// How many segments the route from the origin to the destination has, or its first step that
/// is refused. Rising keys repeat no segment, so the loop ends on every plan.
pub fn check_route<W: WayFinder, R: Ranker>(
    map: &Map,
    finder: &W,
    ranker: &R,
    origin: u8,
    destination: u8,
) -> Result<u16, Refusal>
    ensures is { result ≡ route_check (routing W.WayFinder R.Ranker R.Key.KeyOrder map.now finder.now ranker.now) origin destination }
    ensures exact { Exact (routing W.WayFinder R.Ranker R.Key.KeyOrder map.now finder.now ranker.now) origin destination result }
{
    let mut table = origin;
    let mut note = finder.first_note(origin, destination);
    let mut held: Option<Held<R::Key>> = None;
    for number in 1..u16::MAX {
        let step = Step {
            origin,
            destination,
            number,
            held: segment_of(&held),
        };
        // `else` and not `?`, so that the four refusals of a step read alike
        let Some((side, next)) = finder.way(table, destination, note) else {
            return Err(step.refused(Reason::NoWay, None));
        };
        let wanted = side.segment_from(table);
        let Some(head) = map.head(wanted) else {
            return Err(step.refused(Reason::NoSegment, Some(wanted)));
        };
        if !map.is_open(wanted) {
            return Err(step.refused(Reason::Closed, Some(wanted)));
        }
        let key = ranker.key(wanted);
        if !may_follow(&held, &key) {
            return Err(step.refused(Reason::NotRising, Some(wanted)));
        }
        if head == destination {
            return Ok(number);
        }
        table = head;
        note = next;
        held = Some(Held {
            segment: wanted,
            key,
        });
    }
    // a route over rising keys has ended long before
    unreachable!()
}

/// A step of a route, as its refusal names it.
#[derive(Clone, Copy)]
struct Step {
    origin: u8,
    destination: u8,
    number: u16,
    held: Option<u16>,
}

impl Step {
    fn refused(self, reason: Reason, wanted: Option<u16>) -> Refusal
        ensures { result ≡ refused reason self.origin self.destination self.number self.held wanted }
    {
        Refusal {
            reason,
            origin: self.origin,
            destination: self.destination,
            step: self.number,
            held: self.held.unwrap_or(NO_SEGMENT),
            wanted: wanted.unwrap_or(NO_SEGMENT),
        }
    }
}

/// A segment held, with its key: the ranker is asked for no key twice.
#[derive(Drop)]
struct Held<K: Drop> {
    segment: u16,
    key: K,
}

fn segment_of<K: Drop>(held: &Option<Held<K>>) -> Option<u16>
    ensures { result ≡ segment_of held.now }
{
    held.as_ref().map(|h| h.segment)
}

/// Whether the key held is before the one wanted; at the first step nothing is held.
fn may_follow<K: KeyOrder + Drop>(held: &Option<Held<K>>, wanted: &K) -> bool
    ensures { result ≡ may_follow K.KeyOrder.before held.now wanted.now }
{
    held.as_ref().is_none_or(|h| h.key.before(wanted))
}
