ghost use Rattle.std.specs.Prelude.{◌≡◌, Bool, true, false, ◌&&◌, ◌||◌, ltb, eqb};
ghost use Rattle.std.proofs.Common.{rules};

/// A kind of key. Its order may be partial: what holds of every kind is the three laws, and
/// code over kinds of key may use nothing more.
pub trait KeyOrder {
    ghost before: { Self → Self → Bool };

    ghost same: { Self → Self → Bool };

    fn before(&self, other: &Self) -> bool
        ensures { result ≡ before self.now other.now };

    fn same(&self, other: &Self) -> bool
        ensures { result ≡ same self.now other.now };

    ghost irreflexive: { (x : Self) → before x x ≡ false };

    ghost transitive: { (x y z : Self) → before x y ≡ true → before y z ≡ true → before x z ≡ true };

    ghost exact: { (x y : Self) → (x ≡ y → same x y ≡ true) × (same x y ≡ true → x ≡ y) };
}

/// 16-bit numbers by size.
impl KeyOrder for u16 {
    ghost before = { λ x y. ltb x y };

    ghost same = { λ x y. eqb x y };

    ghost irreflexive = { Prim.search rules };

    ghost transitive = { Prim.search rules };

    ghost exact = { Prim.search rules };

    fn before(&self, other: &u16) -> bool {
        *self < *other
    }

    fn same(&self, other: &u16) -> bool {
        *self == *other
    }
}

/// A key of two parts, each of any kind.
#[derive(Clone, Copy, PartialEq, Eq, Debug)]
pub struct Pair<A, B> {
    pub first: A,
    pub second: B,
}

/// The first parts decide, unless they are the same.
impl<A: KeyOrder, B: KeyOrder> KeyOrder for Pair<A, B> {
    ghost before = { λ x y. A.KeyOrder.before x.first y.first || (A.KeyOrder.same x.first y.first && B.KeyOrder.before x.second y.second) };

    ghost same = { λ x y. A.KeyOrder.same x.first y.first && B.KeyOrder.same x.second y.second };

    ghost irreflexive = { Prim.search rules };

    ghost transitive = { Prim.search rules };

    ghost exact = { Prim.search rules };

    fn before(&self, other: &Pair<A, B>) -> bool {
        if self.first.same(&other.first) {
            self.second.before(&other.second)
        } else {
            self.first.before(&other.first)
        }
    }

    fn same(&self, other: &Pair<A, B>) -> bool {
        self.first.same(&other.first) && self.second.same(&other.second)
    }
}
