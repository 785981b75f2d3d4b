ghost use Rattle.std.specs.Prelude.{◌≡◌, ◌≤◌};
ghost use Rattle.script.specs.Numbers.{capped, number_of};
ghost use Rattle.script.specs.Parts.{table_of, segment_of};

use crate::call::Fault;

// One more than every number that a call can carry.
const OVER: u32 = 65_536;

/// What a word of decimal digits is worth; what is larger counts as 65,536.
// Not `parse`, which takes a sign too. A loop: what `try_fold` gives was left unproved.
#[tactic(auto, using(crate::proofs::Digits::begins))]
fn value_of(word: &str) -> Option<u32>
    ensures { result ≡ capped (number_of word.now) }
{
    if word.is_empty() {
        return None;
    }
    let mut value: u32 = 0;
    for digit in word.as_bytes() {
        value = (10 * value + char::from(*digit).to_digit(10)?).min(OVER);
    }
    Some(value)
}

/// A table, and likewise a width or a height.
// Not one function at any `T: TryFrom<u32>`: it could promise that trait's relation alone, which is
// no plainer than these two equations.
pub(crate) fn read_table(word: &str) -> Result<u8, Fault>
    ensures is { result ≡ table_of word.now }
{
    let value = value_of(word).ok_or(Fault::NoNumber)?;
    u8::try_from(value).map_err(|_| Fault::TooLarge)
}

pub(crate) fn read_segment(word: &str) -> Result<u16, Fault>
    ensures is { result ≡ segment_of word.now }
{
    let value = value_of(word).ok_or(Fault::NoNumber)?;
    u16::try_from(value).map_err(|_| Fault::TooLarge)
}
