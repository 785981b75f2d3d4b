ghost use Rattle.std.specs.Prelude.{◌≡◌, length, Some, None, MatchResult};
ghost use Rattle.planfile.specs.Outcomes.{block_refusal, kind_of};

use crate::bytes::Body;
use crate::refusal::Refusal;
use blocks::sum::word_sum;

/// What the head block gives: the floor's size, and how many stops there are.
#[derive(Clone, Copy)]
pub struct Head {
    pub width: u8,
    pub height: u8,
    pub count: u8,
}

/// The half byte of an entry that is no way: a way is a side's number, which is below 4.
pub const NO_WAY: u8 = 15;

/// What a block is to hold: the head with the stops, the ways to a stop, or an eighth of the keys.
#[derive(Clone, Copy)]
pub enum Content {
    Stops,
    Ways { stop: u8 },
    Keys { part: u8 },
}

impl Content {
    /// The kind of a block that holds this.
    pub fn kind(self) -> u8
        ensures { result ≡ kind_of self }
    {
        // the format's byte, by a match: variants that hold something have no number of their own
        match self {
            Content::Stops => 1,
            Content::Ways { .. } => 2,
            Content::Keys { .. } => 3,
        }
    }
}

/// Judges a block by itself: its sum, its first four bytes, and then its content.
pub(crate) fn read_block(
    block: &[u8],
    number: u8,
    head: Head,
    content: Content,
) -> Result<(), Refusal>
    requires { length block.now ≡ 512 }
    ensures { MatchResult result (λ _. block_refusal head content number block.now ≡ None) (λ e. block_refusal head content number block.now ≡ Some e) }
{
    let [kind, found, zero_a, zero_b, body @ ..] = block else {
        return Err(Refusal::BadLength);
    };
    if word_sum(block) != 0xFFFF_FFFF {
        return Err(Refusal::BadSum { block: number });
    }
    if [*kind, *found, *zero_a, *zero_b] != [content.kind(), number, 0, 0] {
        return Err(Refusal::BadFront { block: number });
    }
    let body = Body { head, bytes: body };
    if !body.fits(content) {
        return Err(Refusal::BadContent { block: number });
    }
    Ok(())
}
