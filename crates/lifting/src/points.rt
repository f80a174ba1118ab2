// The transform of points by the lifting equations, said without sums, schemes and value kinds, for every table of factors.
ghost use Rattle.std.specs.Prelude.{◌≡◌, length, MatchResult};
ghost use Rattle.lifting.specs.IntegerLifting.{Analysis, Synthesis};
ghost use Rattle.lifting.specs.Splines.{factors, uniform_only};
ghost use Rattle.lifting.specs.Calls.{at_level};

use crate::levels::{analyse_level, synthesise_level};
use hierarchy::Hierarchy;
use kinds::Point;
use refusal::Refusal;
use schemes::{Cubic, Factor, Factors, Linear, Step};

// The schemes that have the equations of the literature, each with its table of factors.
#[derive(Clone, Copy, PartialEq, Eq, Debug)]
pub enum Spline {
    Linear,
    Cubic,
}

// Each asks the scheme of its name, so the checker compares that scheme with the table.
impl Factors for Spline {
    ghost factor = { factors };

    ghost uniform_only = { uniform_only };

    fn factor(&self, step: Step) -> Factor {
        match self {
            Spline::Linear => Linear.factor(step),
            Spline::Cubic => Cubic.factor(step),
        }
    }

    fn uniform_only(&self) -> bool {
        match self {
            Spline::Linear => Linear.uniform_only(),
            Spline::Cubic => Cubic.uniform_only(),
        }
    }
}

// Two functions and not one by a way: their promises are two relations, `Analysis` and `Synthesis`.
pub fn analyse_points<H: Hierarchy, F: Factors + Copy>(
    h: &H,
    table: F,
    points: &mut [Point],
    level: usize,
) -> Result<(), Refusal>
    ensures result { result ≡ at_level (H.meaning h.now) (length points.old) level }
    ensures equations { MatchResult result (λ _. Analysis (H.meaning h.now) level (F.factor table) points.old points.new) (λ _. points.new ≡ points.old) }
{
    analyse_level(h, &table, points, level)
}

pub fn synthesise_points<H: Hierarchy, F: Factors + Copy>(
    h: &H,
    table: F,
    points: &mut [Point],
    level: usize,
) -> Result<(), Refusal>
    ensures result { result ≡ at_level (H.meaning h.now) (length points.old) level }
    ensures equations { MatchResult result (λ _. Synthesis (H.meaning h.now) level (F.factor table) points.old points.new) (λ _. points.new ≡ points.old) }
{
    synthesise_level(h, &table, points, level)
}
