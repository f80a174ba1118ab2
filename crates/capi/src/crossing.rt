// The value kinds that cross to C.
ghost use Rattle.std.specs.Prelude.{◌≡◌, refl};
ghost use Rattle.kinds.specs.MarkSums.{unmarked};
ghost use Rattle.kinds.specs.PairSums.{pair};
ghost use Rattle.kinds.specs.PointSums.{origin};
ghost use Rattle.capi.specs.declared.records.PointAndMarks.{PointAndMarks};

use crate::records::PointAndMarks;
use kinds::{Marks, Pair, Point, ValueKind};

// A value kind whose values are carried by a point with marks. A part that the kind has not is not looked at, and leaves as 0.
// Not From and Into: what those do is a relation, and two more laws would have to make functions of it.
pub trait Crossing: ValueKind {
    ghost arrives: { PointAndMarks → Self };

    ghost leaves: { Self → PointAndMarks };

    // What leaves arrives again as it was.
    ghost kept: { (value : Self) → arrives (leaves value) ≡ value };

    fn arrive(carried: PointAndMarks) -> Self
        ensures { result ≡ arrives carried };

    fn leave(self) -> PointAndMarks
        ensures { result ≡ leaves self };
}

impl Crossing for Point {
    ghost arrives = { λ c. c.point };

    ghost leaves = { λ p. record { point = p; marks = unmarked } };

    ghost kept = { λ _. refl };

    fn arrive(carried: PointAndMarks) -> Point {
        carried.point
    }

    fn leave(self) -> PointAndMarks {
        PointAndMarks {
            point: self,
            marks: Marks::zero(),
        }
    }
}

impl Crossing for Marks {
    ghost arrives = { λ c. c.marks };

    ghost leaves = { λ m. record { point = origin; marks = m } };

    ghost kept = { λ _. refl };

    fn arrive(carried: PointAndMarks) -> Marks {
        carried.marks
    }

    fn leave(self) -> PointAndMarks {
        PointAndMarks {
            point: Point::zero(),
            marks: self,
        }
    }
}

impl Crossing for Pair<Point, Marks> {
    ghost arrives = { λ c. pair c.point c.marks };

    ghost leaves = { λ p. record { point = p.first; marks = p.second } };

    ghost kept = { λ _. refl };

    fn arrive(carried: PointAndMarks) -> Pair<Point, Marks> {
        Pair {
            first: carried.point,
            second: carried.marks,
        }
    }

    fn leave(self) -> PointAndMarks {
        PointAndMarks {
            point: self.first,
            marks: self.second,
        }
    }
}
