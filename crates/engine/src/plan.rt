ghost use Rattle.std.specs.Prelude.{◌≡◌};
ghost use Rattle.engine.specs.Plans.{new_plan, via_changed, via_answer, via_later, with_finder};
ghost use Rattle.detour.specs.Vias.{told, after};
ghost use Rattle.detour.specs.Detours.{with_vias};

use crate::finder::{Finder, Named};
use detour::detour::Detour;
use detour::refusal::Refusal as ViaRefusal;
use plancheck::pass::Pass;
use routes::refusal::Refusal;
use script::call::ViaChange;

/// The plan of a store, with what the check said of it and the map as they are now.
#[derive(Clone, Copy)]
pub struct Plan {
    // its ranker, whatever detours there are
    pub named: Named,
    pub finder: Finder,
    pub verdict: Option<Result<Pass, Refusal>>,
}

impl Plan {
    pub(crate) fn of(named: Named) -> Plan
        ensures { result ≡ new_plan named }
    {
        Plan {
            named,
            finder: Finder::Bare(named),
            verdict: None,
        }
    }

    /// For another map: the check said nothing of this one yet.
    pub(crate) fn unchecked(self) -> Plan
        ensures { result ≡ with_finder self self.finder }
    {
        Plan {
            verdict: None,
            ..self
        }
    }
}

fn change_in<W>(detour: &mut Detour<W>, change: ViaChange) -> Result<(), ViaRefusal>
    ensures outcome { result ≡ told (via_changed detour.old.vias change) }
    ensures later { detour.new ≡ with_vias detour.old (after detour.old.vias (via_changed detour.old.vias change)) }
{
    match change {
        ViaChange::AddVia(origin, destination, via) => detour.add(origin, destination, via),
        ViaChange::RemoveVia(origin, destination) => detour.remove(origin, destination),
    }
}

impl Finder {
    /// Changes the vias of the uppermost detour, where there is one.
    pub(crate) fn change_vias(&mut self, change: ViaChange) -> Option<Result<(), ViaRefusal>>
        ensures answer { result ≡ via_answer self.old change }
        ensures later { self.new ≡ via_later self.old change }
    {
        match self {
            Finder::Bare(_) => None,
            Finder::Once(detour) => Some(change_in(detour, change)),
            Finder::Twice(detour) => Some(change_in(detour, change)),
            Finder::Thrice(detour) => Some(change_in(detour, change)),
        }
    }
}
