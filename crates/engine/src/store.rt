ghost use Rattle.std.specs.Prelude.{◌≡◌, None};
ghost use Rattle.map.specs.Layouts.{layout};
ghost use Rattle.script.specs.Parts.{texts};
ghost use Rattle.script.specs.Calls.{call_of};
ghost use Rattle.map.specs.Changes.{told as mapTold, after, new_map};
ghost use Rattle.engine.specs.Answers.{changed, map_of, map_outcome, answer_of, line_answer, change_answer, vias_answer, check_answer, open_answer, use_answer, detour_answer, plan_answer};
ghost use Rattle.engine.specs.Laters.{instead, changed_map, later_map, PlanLater, later_floor, line_map, LinePlan, line_floor, new_map_else, changed_plan, Chosen, detour_later, vias_later, check_later, open_later, use_later};
ghost use Rattle.engine.specs.Uses.{floor_answer, floor_later};

use crate::finder::{Finder, Named};
use crate::outcome::{Failure, Outcome, Wrong};
use crate::plan::Plan;
use floor::floor::Floor;
use map::map::Map;
use map::refusal::Refusal;
use plancheck::check;
use promise::open_checked;
use script::call::{Call, Change, FloorUse, Part, PlanKind, ViaChange};
use tree::tree::Tree;
use ways::rows::RowFirst;

/// The store that a script describes.
#[derive(Drop)]
pub struct Store {
    pub map: Option<Map>,
    pub plan: Option<Plan>,
    pub floor: Option<Floor<Finder>>,
}

fn apply(map: &mut Map, change: Change) -> Result<(), Refusal>
    ensures outcome { result ≡ mapTold (changed (layout map.old) change) }
    ensures later { layout map.new ≡ after (layout map.old) (changed (layout map.old) change) }
{
    match change {
        Change::MarkStop(table) => map.mark_stop(table),
        Change::UnmarkStop(table) => map.unmark_stop(table),
        Change::Close(Part::Table(table)) => map.close_table(table),
        Change::Reopen(Part::Table(table)) => map.reopen_table(table),
        Change::Close(Part::Segment(segment)) => map.close_segment(segment),
        Change::Reopen(Part::Segment(segment)) => map.reopen_segment(segment),
    }
}

fn ask_floor(floor: &mut Floor<Finder>, asked: FloorUse) -> Result<Outcome, Failure>
    ensures answer { result ≡ floor_answer floor.old asked }
    ensures later { floor.new ≡ floor_later floor.old asked }
{
    match asked {
        FloorUse::EnterTray(origin, destination) => Ok(Outcome::LetIn(floor.enter(
            origin,
            destination,
        )?)),
        FloorUse::AdvanceTray(segment) => Ok(Outcome::Advanced(floor.advance(segment)?)),
        FloorUse::CountLeft(segment) => Ok(Outcome::SegmentsLeft(floor.left(segment)?)),
        FloorUse::LookAt(segment) => Ok(Outcome::Seen(floor.look(segment)?)),
        FloorUse::TellCounts => Ok(Outcome::Counted(floor.counts())),
    }
}

fn change_map(
    map: &mut Option<Map>,
    plan: &mut Option<Plan>,
    change: Change,
) -> Result<Outcome, Failure>
    ensures answer { result ≡ change_answer (map_of map.old) change }
    ensures map { map_of map.new ≡ changed_map (map_of map.old) change }
    ensures plan { plan.new ≡ changed_plan (map_of map.old) change plan.old }
{
    let map = map.as_mut().ok_or(Wrong::NoMap)?;
    apply(map, change)?;
    *plan = plan.map(Plan::unchecked);
    Ok(Outcome::Done)
}

fn choose_plan(
    map: Option<Map>,
    plan: &mut Option<Plan>,
    kind: PlanKind,
) -> Result<Outcome, Failure>
    ensures answer { result ≡ plan_answer (map_of map) kind }
    ensures plan { Chosen (map_of map) kind plan.old plan.new }
{
    let named = match kind {
        PlanKind::RowFirst => Named::ByRows(RowFirst),
        PlanKind::Tree => Named::ByTree(Tree::new(&map.ok_or(Wrong::NoMap)?)),
    };
    *plan = Some(Plan::of(named));
    Ok(Outcome::Done)
}

fn add_detour(plan: &mut Option<Plan>) -> Result<Outcome, Failure>
    ensures answer { result ≡ detour_answer plan.old }
    ensures plan { plan.new ≡ detour_later plan.old }
{
    let plan = plan.as_mut().ok_or(Wrong::NoPlan)?;
    plan.finder = plan.finder.detoured().ok_or(Wrong::ThreeDetours)?;
    plan.verdict = None;
    Ok(Outcome::Done)
}

fn change_vias(plan: &mut Option<Plan>, change: ViaChange) -> Result<Outcome, Failure>
    ensures answer { result ≡ vias_answer plan.old change }
    ensures plan { plan.new ≡ vias_later plan.old change }
{
    let plan = plan.as_mut().ok_or(Wrong::NoPlan)?;
    plan.finder.change_vias(change).ok_or(Wrong::NoDetour)??;
    plan.verdict = None;
    Ok(Outcome::Done)
}

fn check_plan(map: Option<Map>, plan: &mut Option<Plan>) -> Result<Outcome, Failure>
    ensures answer { result ≡ check_answer (map_of map) plan.old }
    ensures plan { plan.new ≡ check_later (map_of map) plan.old }
{
    let map = map.ok_or(Wrong::NoMap)?;
    let plan = plan.as_mut().ok_or(Wrong::NoPlan)?;
    let verdict = check(&map, &plan.finder, &plan.named);
    plan.verdict = Some(verdict);
    Ok(Outcome::Passed(verdict?))
}

/// Opens a floor on the map and the way-finder as they are now, passed or not.
fn open_floor(
    map: Option<Map>,
    plan: Option<Plan>,
    floor: &mut Option<Floor<Finder>>,
) -> Result<Outcome, Failure>
    ensures answer { result ≡ open_answer (map_of map) plan }
    ensures floor { floor.new ≡ open_later map plan floor.old }
{
    let map = map.ok_or(Wrong::NoMap)?;
    let plan = plan.ok_or(Wrong::NoPlan)?;
    *floor = Some(open_checked(map, plan.finder, &plan.named).floor);
    Ok(Outcome::Done)
}

fn use_floor(floor: &mut Option<Floor<Finder>>, asked: FloorUse) -> Result<Outcome, Failure>
    ensures answer { result ≡ use_answer floor.old asked }
    ensures floor { floor.new ≡ use_later floor.old asked }
{
    ask_floor(floor.as_mut().ok_or(Wrong::NoFloor)?, asked)
}

impl Store {
    pub(crate) fn empty() -> Store
        ensures { (result.map ≡ None) × ((result.plan ≡ None) × (result.floor ≡ None)) }
    {
        Store {
            map: None,
            plan: None,
            floor: None,
        }
    }

    /// The answer to a line: that of the call which its words ask for.
    pub(crate) fn answer(&mut self, words: &[&str]) -> Result<Outcome, Failure>
        ensures answer { result ≡ line_answer self.old (call_of (texts words.now)) }
        ensures map { map_of self.new.map ≡ line_map (map_of self.old.map) (call_of (texts words.now)) }
        ensures plan { LinePlan self.old (call_of (texts words.now)) self.new.plan }
        ensures floor { self.new.floor ≡ line_floor self.old (call_of (texts words.now)) }
    {
        self.make(Call::read(words)?)
    }

    /// Makes the call; where something it needs is missing, nothing changes.
    pub(crate) fn make(&mut self, call: Call) -> Result<Outcome, Failure>
        ensures answer { result ≡ answer_of self.old call }
        ensures map { map_of self.new.map ≡ later_map (map_of self.old.map) call }
        ensures plan { PlanLater self.old call self.new.plan }
        ensures floor { self.new.floor ≡ later_floor self.old call }
    {
        match call {
            Call::MakeMap(width, height) => self.make_map(width, height),
            Call::ChangeMap(change) => change_map(&mut self.map, &mut self.plan, change),
            Call::DrawMap => {
                self.map.ok_or(Wrong::NoMap)?;
                Ok(Outcome::Drawn)
            }
            Call::ChoosePlan(kind) => choose_plan(self.map, &mut self.plan, kind),
            Call::AddDetour => add_detour(&mut self.plan),
            Call::ChangeVias(change) => change_vias(&mut self.plan, change),
            Call::CheckPlan => check_plan(self.map, &mut self.plan),
            Call::OpenFloor => open_floor(self.map, self.plan, &mut self.floor),
            Call::UseFloor(asked) => use_floor(&mut self.floor, asked),
        }
    }

    /// The plan and the floor of the old map go with it.
    fn make_map(&mut self, width: u8, height: u8) -> Result<Outcome, Failure>
        ensures answer { result ≡ map_outcome (new_map width height) }
        ensures map { map_of self.new.map ≡ instead (map_of self.old.map) (new_map width height) }
        ensures plan { self.new.plan ≡ new_map_else (new_map width height) self.old.plan }
        ensures floor { self.new.floor ≡ new_map_else (new_map width height) self.old.floor }
    {
        self.map = Some(Map::new(width, height)?);
        self.plan = None;
        self.floor = None;
        Ok(Outcome::Done)
    }
}
