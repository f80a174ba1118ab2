// The factor a of a lifting equation, and a table of factors.
ghost use Rattle.std.specs.Prelude.{◌≡◌, ◌≤◌, Bool, unsigned_abs};

use crate::steps::Step;

// A factor from −1 to 1, in sixteenths.
#[derive(Clone, Copy, PartialEq, Eq, Debug)]
pub struct Factor {
    pub sixteenths: i64,
    // so no product overflows
    pub ghost small: { unsigned_abs sixteenths ≤ 16 },
}

impl Factor {
    pub(crate) const ONE: Factor = Factor { sixteenths: 16 };
}

// A table of factors, one for each step. Each table makes a scheme of points, by the lifting equations.
pub trait Factors {
    ghost use Rattle.schemes.specs.Fractions.{Fraction, Worth};
    ghost use Rattle.schemes.specs.declared.steps.Step.{Step};

    ghost factor: { Self → Step → Fraction };

    // Whether the scheme asks for a uniform hierarchy.
    ghost uniform_only: { Self → Bool };

    fn factor(&self, step: Step) -> Factor
        ensures { Worth (factor self.now step) result.sixteenths 16 };

    fn uniform_only(&self) -> bool
        ensures { result ≡ uniform_only self.now };
}

// A table that is lent is a table too.
impl<F: Factors> Factors for &F {
    ghost factor = { λ table. F.factor table.now };

    ghost uniform_only = { λ table. F.uniform_only table.now };

    fn factor(&self, step: Step) -> Factor {
        (**self).factor(step)
    }

    fn uniform_only(&self) -> bool {
        (**self).uniform_only()
    }
}
