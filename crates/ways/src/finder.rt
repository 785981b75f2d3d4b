ghost use Rattle.std.specs.Prelude.{◌≡◌, ℕ, Option};
ghost use Rattle.map.specs.declared.side.Side.{Side};

use map::side::Side;

/// A way-finder means two functions of its present value, each with a value for every input.
/// Asking changes nothing, and code over way-finders may use nothing more.
pub trait WayFinder {
    ghost first: { Self → ℕ → ℕ → ℕ };

    ghost way: { Self → ℕ → ℕ → ℕ → Option (Side × ℕ) };

    // No default of 0: a trait's body would have to be right of every way-finder's meaning.
    /// The note that a tray carries as it leaves the origin for the destination.
    fn first_note(&self, origin: u8, destination: u8) -> u32
        ensures { result ≡ first self.now origin destination };

    /// The side on which a tray with this note leaves the table towards the destination, with
    /// the note that it carries from there; or no way.
    fn way(&self, table: u8, destination: u8, note: u32) -> Option<(Side, u32)>
        ensures { result ≡ way self.now table destination note };
}
