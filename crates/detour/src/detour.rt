ghost use Rattle.std.specs.Prelude.{◌≡◌, ◌/◌, ◌%◌, cond, Some, None};
ghost use Rattle.detour.specs.Vias.{no_vias, add_via, remove_via, told, after};
ghost use Rattle.detour.specs.Detours.{code, on_way_to, fits, carried, detour_first, detour_way, way_under, with_vias};
ghost use Rattle.detour.specs.Promises.{ViaSet, Changed};

use crate::refusal::Refusal;
use crate::vias::{Via, Vias};
use map::side::Side;
use ways::finder::WayFinder;

/// The largest note of the one below that a code can hold.
const MOST: u32 = 16_711_934;

/// Stands for a code that was not formed: at this note there is no way. A number, since every
/// way-finder's note is one.
const NO_CODE: u32 = u32::MAX;

/// A way-finder over another: the trays of a pair that has a via go by way of it, and all others
/// as below.
#[derive(Clone, Copy, Drop)]
pub struct Detour<W> {
    below: W,
    vias: Vias,
}

impl<W> Detour<W> {
    /// With no vias.
    pub fn over(below: W) -> Detour<W>
        ensures { result ≡ record { below = below; vias = no_vias } }
    {
        Detour {
            below,
            vias: Vias::none(),
        }
    }

    /// Sends the trays from the origin to the destination by way of the table.
    pub fn add(&mut self, origin: u8, destination: u8, table: u8) -> Result<(), Refusal>
        ensures outcome { result ≡ told (add_via self.old.vias origin destination table) }
        ensures later { self.new ≡ with_vias self.old (after self.old.vias (add_via self.old.vias origin destination table)) }
        ensures only { Changed result (ViaSet origin destination (Some table)) self.old.vias self.new.vias }
    {
        if origin == destination || origin == table || destination == table {
            return Err(Refusal::NotThreeTables);
        }
        if self.vias.find(origin, destination).is_some() {
            return Err(Refusal::HasVia);
        }
        let place = self.vias.free_place().ok_or(Refusal::NoPlace)?;
        self.vias.places[place] = Some(Via {
            origin,
            destination,
            table,
        });
        Ok(())
    }

    /// Lets the trays from the origin to the destination go as below again.
    pub fn remove(&mut self, origin: u8, destination: u8) -> Result<(), Refusal>
        ensures outcome { result ≡ told (remove_via self.old.vias origin destination) }
        ensures later { self.new ≡ with_vias self.old (after self.old.vias (remove_via self.old.vias origin destination)) }
        ensures only { Changed result (ViaSet origin destination None) self.old.vias self.new.vias }
    {
        if self.vias.find(origin, destination).is_none() {
            return Err(Refusal::NoVia);
        }
        self.vias.remove(origin, destination);
        Ok(())
    }
}

/// The code of a note of the one below with the via that the tray is on its way to, where one is
/// formed.
fn code(note: u32, via: Option<u8>) -> Option<u32>
    ensures { result ≡ cond (fits note) (Some (code note (on_way_to via))) None }
{
    let h = via.map_or(0, |via| u32::from(via) + 1);
    if note <= MOST {
        Some(257 * note + h)
    } else {
        None
    }
}

/// The note of the one below that a code holds, and the via that the tray is on its way to.
fn decode(code: u32) -> (u32, Option<u8>)
    ensures below { result.0 ≡ code / 257 }
    ensures via { on_way_to result.1 ≡ code % 257 }
{
    let via = match code % 257 {
        0 => None,
        h => Some((h - 1) as u8),
    };
    (code / 257, via)
}

/// The way below, its note coded with the via.
fn carry(below: Option<(Side, u32)>, via: Option<u8>) -> Option<(Side, u32)>
    ensures { result ≡ carried (on_way_to via) below }
{
    let (side, note) = below?;
    Some((side, code(note, via)?))
}

impl<W: WayFinder> WayFinder for Detour<W> {
    ghost first = { λ w o d. detour_first (W.WayFinder.first w.below) (W.WayFinder.way w.below) w.vias o d };

    ghost way = { λ w t d n. detour_way (W.WayFinder.first w.below) (W.WayFinder.way w.below) t d n };

    fn first_note(&self, origin: u8, destination: u8) -> u32 {
        let via = self.vias.find(origin, destination);
        let below = self.below.first_note(origin, via.unwrap_or(destination));
        code(below, via).unwrap_or(NO_CODE)
    }

    fn way(&self, table: u8, destination: u8, note: u32) -> Option<(Side, u32)> {
        if note == NO_CODE {
            return None;
        }
        let (below, via) = decode(note);
        match via {
            None => carry(self.below.way(table, destination, below), None),
            Some(via) if table == via => {
                let first = self.below.first_note(table, destination);
                carry(self.below.way(table, destination, first), None)
            }
            Some(via) => carry(self.below.way(table, via, below), Some(via)),
        }
    }
}
