// The cubic scheme: a = −1/4, −1 and 3/16. It needs a uniform hierarchy.
ghost use Rattle.std.specs.Prelude.{true};
ghost use Rattle.schemes.specs.Equations.{cubic};

use crate::factor::{Factor, Factors};
use crate::steps::Step;

#[derive(Clone, Copy, PartialEq, Eq, Debug)]
pub struct Cubic;

impl Factors for Cubic {
    ghost factor = { λ _. cubic };

    ghost uniform_only = { λ _. true };

    fn factor(&self, step: Step) -> Factor {
        let sixteenths = match step {
            Step::First => -4,
            Step::Second => -16,
            Step::Third => 3,
        };
        Factor { sixteenths }
    }

    fn uniform_only(&self) -> bool {
        true
    }
}
