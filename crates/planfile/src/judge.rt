ghost use Rattle.std.specs.Prelude.{◌≡◌, ◌≤◌, length, Some, None, MatchResult};
ghost use Rattle.planfile.specs.Outcomes.{content_at, length_fits, read_outcome};

use crate::block::{Content, Head, read_block};
use crate::refusal::Refusal;

fn length_fits(length: usize) -> bool
    ensures { result ≡ length_fits length }
{
    length % 512 == 0 && (4608..=37_376).contains(&length)
}

/// What a block behind the head is to hold.
fn content_at(file: &[u8], number: u8) -> Content
    requires { (1 ≤ number) × (512 ≤ length file.now) }
    ensures { result ≡ content_at file.now number }
{
    let count = file[6];
    if number <= count {
        Content::Ways {
            stop: file[7 + usize::from(number)],
        }
    } else {
        Content::Keys {
            part: number - (count + 1),
        }
    }
}

/// Judges the length, the head block, the length by the number of stops, and the other blocks.
pub(crate) fn judge(file: &[u8]) -> Result<(), Refusal>
    ensures { MatchResult result (λ _. read_outcome file.now ≡ None) (λ e. read_outcome file.now ≡ Some e) }
{
    if !length_fits(file.len()) {
        return Err(Refusal::BadLength);
    }
    let head = Head {
        width: file[4],
        height: file[5],
        count: file[6],
    };
    read_block(&file[0..512], 0, head, Content::Stops)?;
    if file.len() != 512 * (usize::from(head.count) + 9) {
        return Err(Refusal::BadLength);
    }
    // each block is judged in place, in a part cut from the middle of the file
    for number in 1..head.count + 9 {
        let at = 512 * usize::from(number);
        read_block(&file[at..at + 512], number, head, content_at(file, number))?;
    }
    Ok(())
}
