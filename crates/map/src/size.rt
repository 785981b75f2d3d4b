ghost use Rattle.std.specs.Prelude.{◌≡◌, ◌≤◌, ◌&&◌, is_ok, is_some, IfOk, IfErr};
ghost use Rattle.map.specs.Sizes.{fits_size};
ghost use Rattle.map.specs.declared.refusal.Refusal.TheVariants.{BadSize};
ghost use Rattle.map.specs.Floors.{on_floor, beside};

use crate::refusal::Refusal;
use crate::side::Side;

/// How many columns and rows a floor has: from 1 to 16 of each.
#[derive(Clone, Copy)]
pub struct Size {
    width: u8,
    height: u8,
    ghost wide: { (1 ≤ width) × (width ≤ 16) },
    ghost high: { (1 ≤ height) × (height ≤ 16) },
}

/// The size of which there is no larger.
pub const LARGEST: Size = Size {
    width: 16,
    height: 16,
};

impl Size {
    pub(crate) fn new(width: u8, height: u8) -> Result<Size, Refusal>
        ensures fits { is_ok result ≡ (fits_size width && fits_size height) }
        ensures made { IfOk result (λ s. (s.width ≡ width) × (s.height ≡ height)) }
        ensures refused { IfErr result (λ e. e ≡ BadSize) }
    {
        if !(1..=16).contains(&width) || !(1..=16).contains(&height) {
            return Err(Refusal::BadSize);
        }
        Ok(Size { width, height })
    }

    pub(crate) fn width(self) -> u8
        ensures { result ≡ self.width }
    {
        self.width
    }

    pub(crate) fn height(self) -> u8
        ensures { result ≡ self.height }
    {
        self.height
    }

    /// Whether the table is on a floor of this size.
    pub(crate) fn has(self, table: u8) -> bool
        ensures { result ≡ on_floor self.width self.height table }
    {
        is_on_floor(self.width, self.height, table)
    }

    /// The neighbour on that side, where both tables are on a floor of this size.
    pub fn beside(self, table: u8, side: Side) -> Option<u8>
        ensures { result ≡ beside self.width self.height table side }
    {
        if !has_beside(self.width, self.height, table, side) {
            return None;
        }
        Some(match side {
            Side::North => table - 16,
            Side::East => table + 1,
            Side::South => table + 16,
            Side::West => table - 1,
        })
    }
}

/// Whether the table is on a floor of so many columns and rows, which may be any numbers.
pub fn is_on_floor(width: u8, height: u8, table: u8) -> bool
    ensures { result ≡ on_floor width height table }
{
    table % 16 < width && table / 16 < height
}

/// Whether the table and its neighbour on that side are on such a floor.
pub fn has_beside(width: u8, height: u8, table: u8, side: Side) -> bool
    ensures { result ≡ is_some (beside width height table side) }
{
    is_on_floor(width, height, table)
        && match side {
            Side::North => table / 16 > 0,
            Side::East => table % 16 + 1 < width,
            Side::South => table / 16 + 1 < height,
            Side::West => table % 16 > 0,
        }
}
