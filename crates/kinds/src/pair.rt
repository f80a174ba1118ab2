// Two kinds side by side, added part by part.
ghost use Rattle.std.specs.Prelude.{◌≡◌};
ghost use Rattle.kinds.specs.PairSums.{pair, both, each, pair_laws};

use crate::kind::ValueKind;

#[derive(Clone, Copy, PartialEq, Eq, Debug)]
pub struct Pair<A, B> {
    pub first: A,
    pub second: B,
}

impl<A: ValueKind, B: ValueKind> ValueKind for Pair<A, B> {
    ghost plus = { both A.ValueKind.plus B.ValueKind.plus };

    ghost zero = { pair A.ValueKind.zero B.ValueKind.zero };

    ghost opposite = { each A.ValueKind.opposite B.ValueKind.opposite };

    ghost laws = { pair_laws A.ValueKind.laws B.ValueKind.laws };

    fn plus(self, other: Pair<A, B>) -> Pair<A, B> {
        Pair {
            first: self.first.plus(other.first),
            second: self.second.plus(other.second),
        }
    }

    fn zero() -> Pair<A, B> {
        Pair {
            first: A::zero(),
            second: B::zero(),
        }
    }

    fn opposite(self) -> Pair<A, B> {
        Pair {
            first: self.first.opposite(),
            second: self.second.opposite(),
        }
    }
}
