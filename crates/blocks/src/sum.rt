ghost use Rattle.std.specs.Prelude.{◌≡◌};
ghost use Rattle.blocks.specs.Words.{word_sum};
ghost use Rattle.blocks.specs.Changes.{OneByteTells};

/// The big-endian words of the block added up, modulo 2^32. No other block that differs in
/// exactly one byte has the same sum.
pub fn word_sum(block: &[u8]) -> u32
    ensures is { result ≡ word_sum block.now }
    ensures tells { OneByteTells block.now }
{
    let (words, _) = block.as_chunks::<4>();
    words
        .iter()
        .map(|word| u32::from_be_bytes(*word))
        .fold(0, |total: u32, word| total.wrapping_add(word))
}
