// The scheme that a table of factors makes, such as the linear and the cubic scheme.
ghost use Rattle.std.specs.Prelude.{◌≡◌, ℕ, List, map};
ghost use Rattle.kinds.specs.declared.point.Point.{Point};
ghost use Rattle.schemes.specs.Equations.{by_one, by_two, s_lift, w_lift, means, rests};
ghost use Rattle.schemes.specs.Fractions.{Fraction, Worth, mean};
ghost use Rattle.schemes.specs.PointAmounts.{Tallied, Summed, each_rounded, by_coordinate, point_amount};
ghost use Rattle.schemes.specs.Readings.{Reads};

use crate::factor::{Factor, Factors};
use crate::point_sum::PointSum;
use crate::scheme::Scheme;
use crate::steps::{Class, Step};
use crate::tally::Tally;
use kinds::{Point, ValueKind};

impl Factor {
    // [2a · mean], for each coordinate.
    fn by_one(self, t: Tally) -> Point
        ensures { (a : Fraction) (ps : List Point) → Worth a self.sixteenths 16 → Tallied t ps → result ≡ each_rounded (λ coordinate. by_one a (mean (map coordinate ps))) }
    {
        let m = t.centroid();
        Point::modulo(
            self.round_one(m.x),
            self.round_one(m.y),
            self.round_one(m.z),
        )
    }

    // [4a² · mean + 4a · mean], for each coordinate: the two are added first and rounded once.
    fn by_two(self, t: Tally, u: Tally) -> Point
        ensures { (a : Fraction) (ps qs : List Point) → Worth a self.sixteenths 16 → Tallied t ps → Tallied u qs → result ≡ each_rounded (λ coordinate. by_two a (mean (map coordinate ps)) (mean (map coordinate qs))) }
    {
        let m = t.centroid();
        let n = u.centroid();
        Point::modulo(
            self.round_two(m.x, n.x),
            self.round_two(m.y, n.y),
            self.round_two(m.z, n.z),
        )
    }

    // Steps 1 and 3.
    fn s_lift(self, class: Class, dimension: u8, sum: PointSum) -> Point
        ensures { (a : Fraction) (q : Reads Point) → Worth a self.sixteenths 16 → Summed sum q → result ≡ by_coordinate (λ ns. s_lift a class dimension (means ns)) q }
    {
        match class {
            Class::Vertex => match dimension {
                2 => self.by_two(sum.faces, sum.edges),
                1 => self.by_one(sum.edges),
                _ => Point::zero(),
            },
            Class::Edge => match dimension {
                2 => self.by_one(sum.faces),
                _ => Point::zero(),
            },
            Class::Face => Point::zero(),
        }
    }

    // Step 2.
    fn w_lift(self, class: Class, sum: PointSum) -> Point
        ensures { (a : Fraction) (d : ℕ) (q : Reads Point) → Worth a self.sixteenths 16 → Summed sum q → result ≡ by_coordinate (λ ns. w_lift a class d (means ns)) q }
    {
        match class {
            Class::Vertex => Point::zero(),
            Class::Edge => self.by_one(sum.vertices),
            Class::Face => self.by_two(sum.vertices, sum.edges),
        }
    }
}

impl<F: Factors> Scheme for F {
    type Value = Point;

    type Sum = PointSum;

    ghost holds = { Summed };

    ghost amount = { λ table. point_amount (F.Factors.factor table) };

    ghost uniform = { F.Factors.uniform_only };

    ghost idle = { λ table. rests (F.Factors.factor table) };

    fn start(&self) -> PointSum {
        PointSum::empty()
    }

    fn gather(&self, sum: PointSum, class: Class, value: Point) -> PointSum {
        sum.with(class, value)
    }

    fn amount(&self, step: Step, class: Class, dimension: u8, sum: PointSum) -> Point {
        let factor = self.factor(step);
        match step {
            Step::First | Step::Third => factor.s_lift(class, dimension, sum),
            Step::Second => factor.w_lift(class, sum),
        }
    }

    fn needs_uniform(&self) -> bool {
        self.uniform_only()
    }

    fn is_idle(&self, step: Step) -> bool {
        self.factor(step).sixteenths == 0
    }
}
