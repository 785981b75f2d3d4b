ghost use Rattle.std.specs.Prelude.{◌≡◌, Some};
ghost use Rattle.reports.specs.Accounts.{account_text, figures_of, figures_text, map_text, or_none, plan_line, plan_text, counts_text, floor_text, said_of, said_text, has_detour, name_text};
ghost use Rattle.floor.specs.Floors.{counts_fields};
ghost use Rattle.map.specs.Layouts.{layout};

use engine::finder::{Finder, Named};
use engine::plan::Plan;
use engine::session::Session;
use floor::floor::{Counts, Floor};
use map::map::Map;
use plancheck::pass::Pass;
use routes::refusal::Refusal;
use std::fmt;

/// What is printed at the end of a script.
#[derive(Clone, Copy)]
pub struct Account<'a>(pub &'a Session);

/// A part of the store, told in a line: what is there, or that there is none.
#[derive(Clone, Copy)]
struct OrNone<T>(Option<T>);

/// What is told of a map.
#[derive(Clone, Copy)]
pub struct Figures {
    width: u8,
    height: u8,
    stops: u8,
    tables: usize,
    segments: usize,
}

/// A plan, told in a line.
#[derive(Clone, Copy)]
struct PlanTold<'a>(&'a Plan);

/// What the check said of the map and the plan as they are now. Public, as its text is stated: a
/// caller can make one.
#[derive(Clone, Copy)]
pub enum Said {
    NotChecked,
    Passes,
    RefusedBy(u8),
}

/// How many trays a floor had, delivered and has.
#[derive(Clone, Copy)]
struct FloorTold(Counts);

impl fmt::Display for Account<'_> {
    ghost output = { λ a. Some (account_text a.0.now) };

    fn fmt<W: fmt::Write>(&self, f: &mut fmt::Formatter<W>) -> fmt::Result {
        let Session { store, tally } = self.0;
        write!(
            f,
            "\naccount\n{tally}\nmap {}\nplan {}\nfloor: {}\n",
            map_told(&store.map),
            plan_told(&store.plan),
            floor_told(&store.floor)
        )
    }
}

impl<T: fmt::Display> fmt::Display for OrNone<T> {
    ghost output = { λ o. or_none T.output o.0 };

    fn fmt<W: fmt::Write>(&self, f: &mut fmt::Formatter<W>) -> fmt::Result {
        match &self.0 {
            None => write!(f, "none"),
            Some(part) => write!(f, "{part}"),
        }
    }
}

fn map_told(map: &Option<Map>) -> OrNone<Figures>
    ensures { or_none (λ a. Some (figures_text a)) result.0 ≡ Some (map_text map.now) }
{
    OrNone(map.as_ref().map(figures_of))
}

fn figures_of(map: &Map) -> Figures
    ensures { result ≡ figures_of (layout map.now) }
{
    Figures {
        width: map.width(),
        height: map.height(),
        stops: map.stop_count(),
        // a range with a cast: over `0..=255` the count was left unproved
        tables: (0..256u16)
            .filter(|table| map.is_table_closed(*table as u8))
            .count(),
        segments: (0..1024u16)
            .filter(|segment| map.is_segment_closed(*segment))
            .count(),
    }
}

impl fmt::Display for Figures {
    ghost output = { λ a. Some (figures_text a) };

    fn fmt<W: fmt::Write>(&self, f: &mut fmt::Formatter<W>) -> fmt::Result {
        write!(
            f,
            "{} x {}, stops {}, closed tables {}, closed segments {}",
            self.width, self.height, self.stops, self.tables, self.segments
        )
    }
}

fn plan_told(plan: &Option<Plan>) -> OrNone<PlanTold<'_>>
    ensures { or_none (λ a. Some (plan_line a.0.now)) result.0 ≡ Some (plan_text plan.now) }
{
    OrNone(plan.as_ref().map(|plan| PlanTold(plan)))
}

fn name_of(plan: &Plan) -> &'static str
    ensures { result.now ≡ name_text plan.now.named (has_detour plan.now.finder) }
{
    match (plan.named, plan.finder) {
        (Named::ByRows(_), Finder::Bare(_)) => "row-first",
        (Named::ByRows(_), _) => "row-first with detour",
        (Named::ByTree(_), Finder::Bare(_)) => "tree",
        (Named::ByTree(_), _) => "tree with detour",
    }
}

impl fmt::Display for PlanTold<'_> {
    ghost output = { λ a. Some (plan_line a.0.now) };

    fn fmt<W: fmt::Write>(&self, f: &mut fmt::Formatter<W>) -> fmt::Result {
        write!(f, "{}: {}", name_of(self.0), Said::of(self.0.verdict))
    }
}

impl Said {
    fn of(verdict: Option<Result<Pass, Refusal>>) -> Said
        ensures { result ≡ said_of verdict }
    {
        match verdict {
            None => Said::NotChecked,
            Some(Ok(_)) => Said::Passes,
            Some(Err(refusal)) => Said::RefusedBy(refusal.reason.number()),
        }
    }
}

impl fmt::Display for Said {
    ghost output = { λ a. Some (said_text a) };

    fn fmt<W: fmt::Write>(&self, f: &mut fmt::Formatter<W>) -> fmt::Result {
        match self {
            Said::NotChecked => write!(f, "not checked"),
            Said::Passes => write!(f, "pass"),
            Said::RefusedBy(number) => write!(f, "refused {number}"),
        }
    }
}

fn floor_told(floor: &Option<Floor<Finder>>) -> OrNone<FloorTold>
    ensures { or_none (λ a. Some (counts_text (counts_fields a.0))) result.0 ≡ Some (floor_text floor.now) }
{
    OrNone(floor.as_ref().map(|floor| FloorTold(floor.counts())))
}

impl fmt::Display for FloorTold {
    ghost output = { λ a. Some (counts_text (counts_fields a.0)) };

    fn fmt<W: fmt::Write>(&self, f: &mut fmt::Formatter<W>) -> fmt::Result {
        let counts = self.0;
        write!(
            f,
            "in {}, delivered {}, on the floor {}",
            counts.entered, counts.delivered, counts.on_floor
        )
    }
}
