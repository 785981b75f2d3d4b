ghost use Rattle.std.specs.Prelude.{◌≡◌, Some};
ghost use Rattle.engine.specs.Tallies.{counted, none_yet, tally_text};

use crate::outcome::{Failure, Outcome};
use std::fmt;

/// How many lines were calls, how many of these were refused, and how many lines were errors.
#[derive(Clone, Copy)]
pub struct Tally {
    calls: u64,
    refused: u64,
    errors: u64,
}

impl Tally {
    pub(crate) fn none_yet() -> Tally
        ensures { result ≡ none_yet }
    {
        Tally {
            calls: 0,
            refused: 0,
            errors: 0,
        }
    }

    pub(crate) fn count(&mut self, answer: Result<Outcome, Failure>)
        ensures { self.new ≡ counted self.old answer }
    {
        match answer {
            Ok(_) => self.calls = self.calls.saturating_add(1),
            Err(Failure::Refused(_)) => {
                self.calls = self.calls.saturating_add(1);
                self.refused = self.refused.saturating_add(1);
            }
            Err(Failure::Wrong(_)) => self.errors = self.errors.saturating_add(1),
        }
    }
}

impl fmt::Display for Tally {
    ghost output = { λ t. Some (tally_text t) };

    fn fmt<W: fmt::Write>(&self, f: &mut fmt::Formatter<W>) -> fmt::Result {
        if self.errors == 0 {
            write!(f, "calls {}, refused {}", self.calls, self.refused)
        } else {
            write!(
                f,
                "calls {}, refused {}, errors {}",
                self.calls, self.refused, self.errors
            )
        }
    }
}
