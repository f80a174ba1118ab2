// Two schemes side by side, part by part.
ghost use Rattle.std.specs.Prelude.{◌≡◌, ◌&&◌, ◌||◌};
ghost use Rattle.schemes.specs.PairAmounts.{both_hold, both_amounts};

use crate::scheme::Scheme;
use crate::steps::{Class, Step};
use kinds::Pair;

// A scheme for pairs of values: each part has its own scheme, which reads the parts of its own kind.
#[derive(Clone, Copy)]
pub struct Both<S, T> {
    pub first: S,
    pub second: T,
}

impl<S: Scheme, T: Scheme> Scheme for Both<S, T> {
    type Value = Pair<S::Value, T::Value>;

    type Sum = Pair<S::Sum, T::Sum>;

    ghost holds = { both_hold S.Scheme.holds T.Scheme.holds };

    ghost amount = { λ b step class dimension. both_amounts (S.Scheme.amount b.first step class dimension) (T.Scheme.amount b.second step class dimension) };

    ghost uniform = { λ b. S.Scheme.uniform b.first || T.Scheme.uniform b.second };

    ghost idle = { λ b step. S.Scheme.idle b.first step && T.Scheme.idle b.second step };

    fn start(&self) -> Pair<S::Sum, T::Sum> {
        Pair {
            first: self.first.start(),
            second: self.second.start(),
        }
    }

    fn gather(
        &self,
        sum: Pair<S::Sum, T::Sum>,
        class: Class,
        value: Pair<S::Value, T::Value>,
    ) -> Pair<S::Sum, T::Sum> {
        Pair {
            first: self.first.gather(sum.first, class, value.first),
            second: self.second.gather(sum.second, class, value.second),
        }
    }

    fn amount(
        &self,
        step: Step,
        class: Class,
        dimension: u8,
        sum: Pair<S::Sum, T::Sum>,
    ) -> Pair<S::Value, T::Value> {
        Pair {
            first: self.first.amount(step, class, dimension, sum.first),
            second: self.second.amount(step, class, dimension, sum.second),
        }
    }

    fn needs_uniform(&self) -> bool {
        self.first.needs_uniform() | self.second.needs_uniform()
    }

    fn is_idle(&self, step: Step) -> bool {
        self.first.is_idle(step) & self.second.is_idle(step)
    }
}
