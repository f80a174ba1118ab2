// The linear scheme: its first step adds nothing, then a = −1/2 and a = 1/4.
ghost use Rattle.std.specs.Prelude.{false};
ghost use Rattle.schemes.specs.Equations.{linear};

use crate::factor::{Factor, Factors};
use crate::steps::Step;

#[derive(Clone, Copy, PartialEq, Eq, Debug)]
pub struct Linear;

impl Factors for Linear {
    ghost factor = { λ _. linear };

    ghost uniform_only = { λ _. false };

    fn factor(&self, step: Step) -> Factor {
        let sixteenths = match step {
            Step::First => 0,
            Step::Second => -8,
            Step::Third => 4,
        };
        Factor { sixteenths }
    }

    fn uniform_only(&self) -> bool {
        false
    }
}
