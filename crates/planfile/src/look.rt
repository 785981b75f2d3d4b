// Looking things up in the bytes of a file, whatever they are.
ghost use Rattle.std.specs.Prelude.{◌≡◌, slice_index};
ghost use Rattle.planfile.specs.Plans.{entry_way};

use map::side::Side;

/// The byte at a place of the file, and 0 behind its end.
pub(crate) fn byte(file: &[u8], place: usize) -> u8
    ensures { result ≡ slice_index file.now place }
{
    file.get(place).copied().unwrap_or(0)
}

/// An entry as a way: a side with note 0, or none.
pub(crate) fn entry_way(entry: u8) -> Option<(Side, u32)>
    ensures { result ≡ entry_way entry }
{
    let side = Side::try_from(entry).ok()?;
    Some((side, 0))
}
