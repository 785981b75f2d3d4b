ghost use Rattle.std.specs.Prelude.{◌≡◌, ◌<◌, length, IfSome};
ghost use Rattle.detour.specs.Vias.{matches, no_vias, via_for, free_place, without};

/// The trays from the origin to the destination go by way of a third table.
#[derive(Clone, Copy, PartialEq, Eq, Debug)]
pub struct Via {
    pub origin: u8,
    pub destination: u8,
    pub table: u8,
}

impl Via {
    // Two numbers and no pair: calls and way-finders are asked with the two.
    fn is_of(&self, origin: u8, destination: u8) -> bool
        ensures { result ≡ matches origin destination (Some self.now) }
    {
        self.origin == origin && self.destination == destination
    }
}

/// Up to 32 vias, each in a place of its own: an array, since `Detour` is `Copy` and an `ArrayVec`
/// is not.
#[derive(Clone, Copy)]
pub struct Vias {
    pub(crate) places: [Option<Via>; 32],
}

impl Vias {
    pub(crate) fn none() -> Vias
        ensures { result ≡ no_vias }
    {
        Vias { places: [None; 32] }
    }

    /// The table by way of which the pair's trays go.
    pub(crate) fn find(&self, origin: u8, destination: u8) -> Option<u8>
        ensures { result ≡ via_for self.now origin destination }
    {
        let mut places = self.places.iter();
        let place = places.find(|place| place.is_some_and(|via| via.is_of(origin, destination)))?;
        place.map(|via| via.table)
    }

    /// The first place that holds no via.
    pub(crate) fn free_place(&self) -> Option<usize>
        ensures is { result ≡ free_place self.now }
        ensures within { IfSome result (λ i. i < length self.now.places) }
    {
        self.places.iter().position(Option::is_none)
    }

    /// Takes the pair's via out.
    #[tactic(auto, using(crate::proofs::Places::clear_all))]
    pub(crate) fn remove(&mut self, origin: u8, destination: u8)
        ensures { self.new ≡ without self.old origin destination }
    {
        for place in &mut self.places {
            if place.is_some_and(|via| via.is_of(origin, destination)) {
                *place = None;
            }
        }
    }
}
