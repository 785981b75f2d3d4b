ghost use Rattle.std.specs.Prelude.{◌≡◌, Some};
ghost use Rattle.engine.specs.declared.outcome.Refused.TheVariants.{ByMap, ByDetour, ByCheck, ByFloor};
ghost use Rattle.engine.specs.declared.outcome.Wrong.TheVariants.{Said};
ghost use Rattle.engine.specs.declared.outcome.Failure.TheVariants as Failures;
ghost use Rattle.engine.specs.Texts.{outcome_text, refused_text, failure_text};

use detour::refusal::Refusal as ViaRefusal;
use floor::floor::{Counts, Entered, Moved};
use map::refusal::Refusal as MapRefusal;
use plancheck::pass::Pass;
use routes::refusal::Refusal as RouteRefusal;
use script::call::Fault;
use std::fmt;
use thiserror::Error;
use trays::refusal::Refusal as TrayRefusal;
use trays::tray::Tray;

/// What a call answered that was done.
#[derive(Clone, Copy)]
pub enum Outcome {
    Done,
    Drawn,
    Passed(Pass),
    LetIn(Entered),
    Advanced(Moved),
    SegmentsLeft(u16),
    Seen(Tray),
    Counted(Counts),
}

/// The refusal that came, by who gave it.
#[derive(Clone, Copy)]
pub enum Refused {
    ByMap(MapRefusal),
    ByDetour(ViaRefusal),
    ByCheck(RouteRefusal),
    ByFloor(TrayRefusal),
}

/// Why a line is an error in place of a call.
#[derive(Clone, Copy, Debug, Error)]
pub enum Wrong {
    #[error(transparent)]
    Said(Fault),
    #[error("needs a map")]
    NoMap,
    #[error("needs a plan")]
    NoPlan,
    #[error("needs a detour")]
    NoDetour,
    #[error("needs a floor")]
    NoFloor,
    #[error("no more than three detours, one over the other")]
    ThreeDetours,
}

/// Why what a line asks for was not done.
#[derive(Clone, Copy)]
pub enum Failure {
    /// It is a call, and was turned down.
    Refused(Refused),
    /// It is no call, or one that lacks something.
    Wrong(Wrong),
}

// By hand: the derive's `From` has no contract, and the clauses of the calls name what `?` makes.

impl From<MapRefusal> for Failure {
    ghost from_gives = { λ e f. f ≡ Failures.Refused (ByMap e) };

    fn from(refusal: MapRefusal) -> Failure {
        Failure::Refused(Refused::ByMap(refusal))
    }
}

impl From<ViaRefusal> for Failure {
    ghost from_gives = { λ e f. f ≡ Failures.Refused (ByDetour e) };

    fn from(refusal: ViaRefusal) -> Failure {
        Failure::Refused(Refused::ByDetour(refusal))
    }
}

impl From<RouteRefusal> for Failure {
    ghost from_gives = { λ e f. f ≡ Failures.Refused (ByCheck e) };

    fn from(refusal: RouteRefusal) -> Failure {
        Failure::Refused(Refused::ByCheck(refusal))
    }
}

impl From<TrayRefusal> for Failure {
    ghost from_gives = { λ e f. f ≡ Failures.Refused (ByFloor e) };

    fn from(refusal: TrayRefusal) -> Failure {
        Failure::Refused(Refused::ByFloor(refusal))
    }
}

impl From<Wrong> for Failure {
    ghost from_gives = { λ w f. f ≡ Failures.Wrong w };

    fn from(wrong: Wrong) -> Failure {
        Failure::Wrong(wrong)
    }
}

impl From<Fault> for Failure {
    ghost from_gives = { λ e f. f ≡ Failures.Wrong (Said e) };

    fn from(fault: Fault) -> Failure {
        Failure::Wrong(Wrong::Said(fault))
    }
}

impl fmt::Display for Refused {
    ghost output = { λ o. Some (refused_text o) };

    fn fmt<W: fmt::Write>(&self, f: &mut fmt::Formatter<W>) -> fmt::Result {
        match self {
            // Two arms with one text: the refusals are of different types.
            Refused::ByMap(refusal) => write!(f, "refused {}", refusal.number()),
            Refused::ByDetour(refusal) => write!(f, "refused {}", refusal.number()),
            Refused::ByCheck(refusal) => write!(
                f,
                "refused {}: origin {}, destination {}, step {}, held {}, wanted {}",
                refusal.reason.number(),
                refusal.origin,
                refusal.destination,
                refusal.step,
                refusal.held,
                refusal.wanted
            ),
            Refused::ByFloor(refusal) => match refusal.segments() {
                None => write!(f, "refused {}", refusal.number()),
                Some((held, wanted)) => write!(
                    f,
                    "refused {}: held {held}, wanted {wanted}",
                    refusal.number()
                ),
            },
        }
    }
}

impl fmt::Display for Outcome {
    ghost output = { λ o. Some (outcome_text o) };

    fn fmt<W: fmt::Write>(&self, f: &mut fmt::Formatter<W>) -> fmt::Result {
        match self {
            Outcome::Done | Outcome::Drawn => write!(f, "ok"),
            Outcome::Passed(pass) => write!(
                f,
                "pass: pairs {}, segments {}, longest {}",
                pass.pairs, pass.segments, pass.longest
            ),
            Outcome::LetIn(entered) => write!(
                f,
                "tray {}, segment {}",
                entered.tray, entered.segment
            ),
            Outcome::Advanced(moved) => write!(
                f,
                "tray {}, advances {}, segment {}",
                moved.tray, moved.advances, moved.segment
            ),
            Outcome::SegmentsLeft(left) => write!(f, "{left}"),
            Outcome::Seen(tray) => write!(
                f,
                "tray {}, destination {}, note {}, advances {}",
                tray.number, tray.destination, tray.note, tray.advances
            ),
            Outcome::Counted(counts) => write!(
                f,
                "in {}, delivered {}, floor {}",
                counts.entered, counts.delivered, counts.on_floor
            ),
        }
    }
}

// By hand: no clause states what a derive writes.
impl fmt::Display for Failure {
    ghost output = { λ f. failure_text f };

    fn fmt<W: fmt::Write>(&self, f: &mut fmt::Formatter<W>) -> fmt::Result {
        match self {
            Failure::Refused(refused) => write!(f, "{refused}"),
            Failure::Wrong(why) => write!(f, "{why}"),
        }
    }
}
