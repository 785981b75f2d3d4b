ghost use Rattle.std.specs.Prelude.{◌≡◌};
ghost use Rattle.script.specs.Parts.{texts, tables_of, one_segment, part_of, plan_of, nothing};

use crate::call::{Fault, Part, PlanKind};
use crate::number::{read_segment, read_table};

/// No word is left over.
pub(crate) fn read_nothing(words: &[&str]) -> Result<(), Fault>
    ensures { result ≡ nothing (texts words.now) }
{
    if words.is_empty() {
        Ok(())
    } else {
        Err(Fault::WrongWords)
    }
}

/// As many tables as are wanted, and no other word.
#[tactic(auto, using(crate::proofs::Tables::goes_on, crate::proofs::Tables::ends))]
pub(crate) fn read_tables<const N: usize>(words: &[&str]) -> Result<[u8; N], Fault>
    ensures { result ≡ tables_of N (texts words.now) }
{
    if words.len() != N {
        return Err(Fault::WrongWords);
    }
    let mut tables = [0; N];
    // By place: of an array written through `iter_mut().zip(..)` a proof learns the length alone.
    for (place, word) in words.iter().enumerate() {
        tables[place] = read_table(word)?;
    }
    Ok(tables)
}

pub(crate) fn read_one_segment(words: &[&str]) -> Result<u16, Fault>
    ensures { result ≡ one_segment (texts words.now) }
{
    let [segment] = words else {
        return Err(Fault::WrongWords);
    };
    read_segment(segment)
}

pub(crate) fn read_part(words: &[&str]) -> Result<Part, Fault>
    ensures { result ≡ part_of (texts words.now) }
{
    let [first, rest @ ..] = words else {
        return Err(Fault::WrongWords);
    };
    match *first {
        "table" => {
            let [table] = read_tables::<1>(rest)?;
            Ok(Part::Table(table))
        }
        "segment" => Ok(Part::Segment(read_one_segment(rest)?)),
        _ => Err(Fault::NoSuchCall),
    }
}

pub(crate) fn read_plan(words: &[&str]) -> Result<PlanKind, Fault>
    ensures { result ≡ plan_of (texts words.now) }
{
    let [first, rest @ ..] = words else {
        return Err(Fault::WrongWords);
    };
    let plan = first.parse()?;
    read_nothing(rest)?;
    Ok(plan)
}
