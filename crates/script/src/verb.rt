ghost use Rattle.std.specs.Prelude.{◌≡◌};
ghost use Rattle.script.specs.Verbs.{verb_of, plan_named};

use crate::call::{Fault, PlanKind};
use std::str::FromStr;

/// The first word of a line.
#[derive(Clone, Copy)]
pub(crate) enum Verb {
    Map,
    Stop,
    Unmark,
    Close,
    Reopen,
    Draw,
    Plan,
    Detour,
    Via,
    Unvia,
    Check,
    Open,
    Enter,
    Advance,
    Left,
    Look,
    Counts,
}

impl FromStr for Verb {
    type Err = Fault;

    ghost from_str_gives = { λ word read. read ≡ verb_of word };

    fn from_str(word: &str) -> Result<Verb, Fault> {
        match word {
            "map" => Ok(Verb::Map),
            "stop" => Ok(Verb::Stop),
            "unmark" => Ok(Verb::Unmark),
            "close" => Ok(Verb::Close),
            "reopen" => Ok(Verb::Reopen),
            "draw" => Ok(Verb::Draw),
            "plan" => Ok(Verb::Plan),
            "detour" => Ok(Verb::Detour),
            "via" => Ok(Verb::Via),
            "unvia" => Ok(Verb::Unvia),
            "check" => Ok(Verb::Check),
            "open" => Ok(Verb::Open),
            "enter" => Ok(Verb::Enter),
            "advance" => Ok(Verb::Advance),
            "left" => Ok(Verb::Left),
            "look" => Ok(Verb::Look),
            "counts" => Ok(Verb::Counts),
            _ => Err(Fault::NoSuchCall),
        }
    }
}

impl FromStr for PlanKind {
    type Err = Fault;

    ghost from_str_gives = { λ word read. read ≡ plan_named word };

    fn from_str(word: &str) -> Result<PlanKind, Fault> {
        match word {
            "row-first" => Ok(PlanKind::RowFirst),
            "tree" => Ok(PlanKind::Tree),
            _ => Err(Fault::NoSuchCall),
        }
    }
}
