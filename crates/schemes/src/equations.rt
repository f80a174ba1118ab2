// The lifting equations in whole numbers.
ghost use Rattle.std.specs.Prelude.{◌≡◌, ◌^◌, ◌≤◌, pos, ◌*ℤ◌, unsigned_abs};
ghost use Rattle.schemes.specs.Equations.{by_one, by_two};
ghost use Rattle.schemes.specs.Fractions.{Fraction, Worth};
ghost use Rattle.schemes.specs.Rounding.{rounded};

use crate::factor::Factor;
use crate::mean::Mean;
use crate::rounding::round;

impl Factor {
    // [2a · mean]
    pub(crate) fn round_one(self, mean: Mean) -> i64
        ensures { (a m : Fraction) → Worth a self.sixteenths 16 → Worth m mean.sum mean.count → result ≡ rounded (by_one a m) }
    {
        round(self.sixteenths * mean.sum, 8 * mean.count)
    }

    // The sum times the factor and the count of another mean, which is small enough to add two of them.
    fn scaled(self, mean: Mean, other: Mean) -> i64
        ensures value { result ≡ (self.sixteenths *ℤ mean.sum) *ℤ pos other.count }
        ensures size { unsigned_abs result ≤ 2 ^ 41 }
    {
        self.sixteenths * mean.sum * i64::from(other.count)
    }

    // [4a² · mean + 4a · mean]
    pub(crate) fn round_two(self, first: Mean, second: Mean) -> i64
        ensures { (a m n : Fraction) → Worth a self.sixteenths 16 → Worth m first.sum first.count → Worth n second.sum second.count → result ≡ rounded (by_two a m n) }
    {
        let over = self.sixteenths
            * (self.scaled(first, second) + Factor::ONE.scaled(second, first));
        round(over, 64 * first.count * second.count)
    }
}
