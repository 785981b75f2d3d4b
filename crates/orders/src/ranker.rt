ghost use Rattle.std.specs.Prelude.{◌≡◌, ℕ};

use crate::key::KeyOrder;

/// Gives each segment number a key, as a function of its present value. Asking changes nothing.
pub trait Ranker {
    type Key: KeyOrder + Drop;

    ghost key: { Self → ℕ → Self.Key };

    fn key(&self, segment: u16) -> Self::Key
        ensures { result ≡ key self.now segment };
}
