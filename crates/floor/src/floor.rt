ghost use Rattle.std.specs.Prelude.{◌≡◌, ◌<◌, IfOk};
ghost use Rattle.std.specs.Option.{unwrap_or};
ghost use Rattle.trays.specs.Outcomes.{next, ask, enter_outcome, enter_later, advance_outcome, advance_later, look_outcome, counts_outcome};
ghost use Rattle.trays.specs.Lefts.{walk, left_outcome, LeftTells};
ghost use Rattle.floor.specs.Floors.{site_in, with_trays, empty_floor, entered_fields, moved_fields, counts_fields};

use map::map::Map;
use trays::refusal::{NO_SEGMENT, Refusal};
use trays::tray::Tray;
use trays::trays::Trays;
use ways::finder::WayFinder;

/// The map and the way-finder that the floor was opened on, and the trays on it. A call lends one
/// record to be changed.
#[derive(Drop)]
pub struct Floor<W> {
    map: Map,
    finder: W,
    trays: Trays,
}

/// The answer to an entry: the tray's number, and the segment that it is on.
#[derive(Clone, Copy, PartialEq, Eq, Debug)]
pub struct Entered {
    pub tray: u32,
    pub segment: u16,
}

/// The answer to an advance: the tray's number, its advances, and its new segment, or 65,535
/// where it was delivered.
#[derive(Clone, Copy, PartialEq, Eq, Debug)]
pub struct Moved {
    pub tray: u32,
    pub advances: u16,
    pub segment: u16,
}

/// How many trays were let in, were delivered, and are on the floor.
#[derive(Clone, Copy, PartialEq, Eq, Debug)]
pub struct Counts {
    pub entered: u32,
    pub delivered: u32,
    pub on_floor: u32,
}

/// The most segments that a walk counts: a floor of 16 by 16 has no more.
const MOST_SEGMENTS: u16 = 960;

impl<W: WayFinder> Floor<W> {
    /// An empty floor on the map and the way-finder, whether they passed the check or not.
    pub fn open(map: Map, finder: W) -> Floor<W>
        ensures { result ≡ empty_floor map finder }
    {
        Floor {
            map,
            finder,
            trays: Trays::none(),
        }
    }

    /// Puts a new tray on the segment that is wanted at the origin.
    pub fn enter(&mut self, origin: u8, destination: u8) -> Result<Entered, Refusal>
        ensures outcome { entered_fields result ≡ enter_outcome (site_in W.WayFinder self.old) self.old.trays origin destination }
        ensures later { self.new ≡ with_trays self.old (enter_later (site_in W.WayFinder self.old) self.old.trays origin destination) }
    {
        if !(self.map.is_stop(origin) && self.map.is_stop(destination) && origin != destination) {
            return Err(Refusal::NotTwoStops);
        }
        let tray = self
            .trays
            .entered
            .checked_add(1)
            .ok_or(Refusal::NumbersUsedUp)?;
        let first = self.finder.first_note(origin, destination);
        let (segment, note) = self.ask(None, origin, destination, first)?;
        let _ = self.trays.records[segment as usize].replace(Tray {
            number: tray,
            destination,
            note,
            advances: 0,
        });
        self.trays.entered = tray;
        Ok(Entered { tray, segment })
    }

    /// Takes the tray on the segment one segment further, or off where that segment leads to its
    /// destination.
    pub fn advance(&mut self, segment: u16) -> Result<Moved, Refusal>
        ensures outcome { moved_fields result ≡ advance_outcome (site_in W.WayFinder self.old) self.old.trays segment }
        ensures later { self.new ≡ with_trays self.old (advance_later (site_in W.WayFinder self.old) self.old.trays segment) }
    {
        let head = self.map.head(segment).ok_or(Refusal::NoSegment)?;
        let tray = self.trays.records[segment as usize].ok_or(Refusal::NoTray)?;
        let advances = tray.advances.saturating_add(1);
        if head == tray.destination {
            let _ = self.trays.records[segment as usize].take();
            self.trays.delivered = self.trays.delivered.saturating_add(1);
            return Ok(Moved {
                tray: tray.number,
                advances,
                segment: NO_SEGMENT,
            });
        }
        let (wanted, note) = self.ask(Some(segment), head, tray.destination, tray.note)?;
        let _ = self.trays.records[wanted as usize].replace(Tray {
            note,
            advances,
            ..tray
        });
        let _ = self.trays.records[segment as usize].take();
        Ok(Moved {
            tray: tray.number,
            advances,
            segment: wanted,
        })
    }

    /// The record of the tray on the segment.
    pub fn look(&self, segment: u16) -> Result<Tray, Refusal>
        ensures { result ≡ look_outcome (site_in W.WayFinder self.now) self.now.trays segment }
    {
        if self.map.head(segment).is_none() {
            return Err(Refusal::NoSegment);
        }
        self.trays.records[segment as usize].ok_or(Refusal::NoTray)
    }

    /// How many segments are on the remaining route of the tray on the segment, its own included.
    #[tactic(auto, using(trays::proofs::Walks::left_tells))]
    pub fn left(&self, segment: u16) -> Result<u16, Refusal>
        ensures is { result ≡ left_outcome (site_in W.WayFinder self.now) self.now.trays segment }
        ensures tells { LeftTells (site_in W.WayFinder self.now) self.now.trays segment }
    {
        let tray = self.look(segment)?;
        self.count_on(segment, tray.destination, tray.note)
    }

    pub fn counts(&self) -> Counts
        ensures { counts_fields result ≡ counts_outcome self.now.trays }
    {
        Counts {
            entered: self.trays.entered,
            delivered: self.trays.delivered,
            on_floor: self.trays.entered.saturating_sub(self.trays.delivered),
        }
    }

    /// The segment that a tray at the table wants, with the note carried there. The check of the
    /// routes takes the same step by itself: each has its own rule's words and refusals.
    fn next(
        &self,
        held: Option<u16>,
        table: u8,
        destination: u8,
        note: u32,
    ) -> Result<(u16, u32), Refusal>
        ensures small { IfOk result (λ a. a.0 < 1024) }
        ensures is { result ≡ next (site_in W.WayFinder self.now) (unwrap_or held 65535) table destination note }
    {
        let held = held.unwrap_or(NO_SEGMENT);
        let way = self.finder.way(table, destination, note);
        let (side, carried) = way.ok_or(Refusal::NoWay(held, NO_SEGMENT))?;
        let wanted = side.segment_from(table);
        if self.map.head(wanted).is_none() {
            return Err(Refusal::WantedMissing(held, wanted));
        }
        if !self.map.is_open(wanted) {
            return Err(Refusal::WantedClosed(held, wanted));
        }
        Ok((wanted, carried))
    }

    /// The same, where no tray is on that segment.
    fn ask(
        &self,
        held: Option<u16>,
        table: u8,
        destination: u8,
        note: u32,
    ) -> Result<(u16, u32), Refusal>
        ensures small { IfOk result (λ a. a.0 < 1024) }
        ensures is { result ≡ ask (site_in W.WayFinder self.now) self.now.trays (unwrap_or held 65535) table destination note }
    {
        let (wanted, carried) = self.next(held, table, destination, note)?;
        if self.trays.records[wanted as usize].is_some() {
            let held = held.unwrap_or(NO_SEGMENT);
            return Err(Refusal::WantedTaken(held, wanted));
        }
        Ok((wanted, carried))
    }

    /// Counts the segments from this one to the destination.
    fn count_on(&self, segment: u16, destination: u8, note: u32) -> Result<u16, Refusal>
        ensures { result ≡ walk (site_in W.WayFinder self.now) destination 959 1 segment note }
    {
        let (mut at, mut carried) = (segment, note);
        for count in 1..=MOST_SEGMENTS {
            let head = self.map.head(at).ok_or(Refusal::NoSegment)?;
            if head == destination {
                return Ok(count);
            }
            // no way is asked after the last
            if count == MOST_SEGMENTS {
                break;
            }
            (at, carried) = self.next(Some(at), head, destination, carried)?;
        }
        Err(Refusal::TooLong)
    }
}
