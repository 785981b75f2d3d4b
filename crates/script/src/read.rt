ghost use Rattle.std.specs.Prelude.{◌≡◌};
ghost use Rattle.script.specs.Parts.{texts};
ghost use Rattle.script.specs.Wordings.{EveryCallCanBeSaid};
ghost use Rattle.script.specs.Calls.{call_of, call_by};

use crate::call::{Call, Change, Fault, FloorUse, ViaChange};
use crate::parts::{read_nothing, read_one_segment, read_part, read_plan, read_tables};
use crate::verb::Verb;

impl Verb {
    /// The call that this verb and the words behind it make.
    fn call(self, words: &[&str]) -> Result<Call, Fault>
        ensures { result ≡ call_by self (texts words.now) }
    {
        match self {
            Verb::Map => {
                let [width, height] = read_tables::<2>(words)?;
                Ok(Call::MakeMap(width, height))
            }
            Verb::Stop => {
                let [table] = read_tables::<1>(words)?;
                Ok(Call::ChangeMap(Change::MarkStop(table)))
            }
            Verb::Unmark => {
                let [table] = read_tables::<1>(words)?;
                Ok(Call::ChangeMap(Change::UnmarkStop(table)))
            }
            Verb::Close => Ok(Call::ChangeMap(Change::Close(read_part(words)?))),
            Verb::Reopen => Ok(Call::ChangeMap(Change::Reopen(read_part(words)?))),
            Verb::Draw => read_nothing(words).map(|()| Call::DrawMap),
            Verb::Plan => Ok(Call::ChoosePlan(read_plan(words)?)),
            Verb::Detour => read_nothing(words).map(|()| Call::AddDetour),
            Verb::Via => {
                let [origin, destination, via] = read_tables::<3>(words)?;
                Ok(Call::ChangeVias(ViaChange::AddVia(origin, destination, via)))
            }
            Verb::Unvia => {
                let [origin, destination] = read_tables::<2>(words)?;
                Ok(Call::ChangeVias(ViaChange::RemoveVia(origin, destination)))
            }
            Verb::Check => read_nothing(words).map(|()| Call::CheckPlan),
            Verb::Open => read_nothing(words).map(|()| Call::OpenFloor),
            Verb::Enter => {
                let [origin, destination] = read_tables::<2>(words)?;
                Ok(Call::UseFloor(FloorUse::EnterTray(origin, destination)))
            }
            Verb::Advance => Ok(Call::UseFloor(FloorUse::AdvanceTray(read_one_segment(words)?))),
            Verb::Left => Ok(Call::UseFloor(FloorUse::CountLeft(read_one_segment(words)?))),
            Verb::Look => Ok(Call::UseFloor(FloorUse::LookAt(read_one_segment(words)?))),
            Verb::Counts => read_nothing(words).map(|()| Call::UseFloor(FloorUse::TellCounts)),
        }
    }
}

impl Call {
    /// The call that the words of a line make. The contract also tells that every call can be
    /// said.
    #[tactic(auto, using(crate::proofs::Sayings::every_call_can_be_said))]
    pub fn read(words: &[&str]) -> Result<Call, Fault>
        ensures is { result ≡ call_of (texts words.now) }
        ensures said { EveryCallCanBeSaid }
    {
        let [first, rest @ ..] = words else {
            return Err(Fault::NoSuchCall);
        };
        first.parse::<Verb>()?.call(rest)
    }
}
