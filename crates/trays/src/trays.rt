ghost use Rattle.std.specs.Prelude.{◌≡◌};
ghost use Rattle.trays.specs.Outcomes.{no_trays};

use crate::tray::Tray;

/// One record for each segment number, and how many trays were let in and delivered. The records
/// stand in an array, since the library has no heap.
#[derive(Clone, Copy)]
pub struct Trays {
    pub records: [Option<Tray>; 1024],
    pub entered: u32,
    pub delivered: u32,
}

impl Trays {
    /// No tray was let in yet.
    pub fn none() -> Trays
        ensures { result ≡ no_trays }
    {
        Trays {
            records: [None; 1024],
            entered: 0,
            delivered: 0,
        }
    }
}
