ghost use Rattle.std.specs.Prelude.{◌≡◌};
ghost use Rattle.script.specs.Parts.{texts};
ghost use Rattle.script.specs.Calls.{call_of};
ghost use Rattle.engine.specs.Answers.{map_of, line_answer};
ghost use Rattle.engine.specs.Laters.{line_map, LinePlan, line_floor};
ghost use Rattle.engine.specs.Sessions.{new_session};
ghost use Rattle.engine.specs.Tallies.{counted};

use crate::outcome::{Failure, Outcome};
use crate::store::Store;
use crate::tally::Tally;

/// A script under way: the store as it is, and what was counted so far.
#[derive(Drop)]
pub struct Session {
    pub store: Store,
    pub tally: Tally,
}

impl Session {
    pub fn new() -> Session
        ensures { result ≡ new_session }
    {
        Session {
            store: Store::empty(),
            tally: Tally::none_yet(),
        }
    }

    /// Makes the call that the words of a line ask for.
    pub fn make(&mut self, words: &[&str]) -> Result<Outcome, Failure>
        ensures answer { result ≡ line_answer self.old.store (call_of (texts words.now)) }
        ensures map { map_of self.new.store.map ≡ line_map (map_of self.old.store.map) (call_of (texts words.now)) }
        ensures plan { LinePlan self.old.store (call_of (texts words.now)) self.new.store.plan }
        ensures floor { self.new.store.floor ≡ line_floor self.old.store (call_of (texts words.now)) }
        ensures counts { self.new.tally ≡ counted self.old.tally result }
    {
        let answer = self.store.answer(words);
        self.tally.count(answer);
        answer
    }
}
