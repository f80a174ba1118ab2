// The running sum of points of one class.
ghost use Rattle.std.specs.Prelude.{◌*◌, ◌^◌, ◌≤◌, unsigned_abs};

use crate::mean::{Centroid, Mean};
use kinds::Point;

// How many points were gathered, and the sum of each coordinate.
#[derive(Clone, Copy)]
pub(crate) struct Tally {
    count: u32,
    x: i64,
    y: i64,
    z: i64,
    ghost few: { count ≤ 8 },
    // so no sum overflows, whatever was gathered
    ghost small: { (unsigned_abs x ≤ count * 2 ^ 31) × (unsigned_abs y ≤ count * 2 ^ 31) × (unsigned_abs z ≤ count * 2 ^ 31) },
}

impl Tally {
    ghost use Rattle.std.specs.Prelude.{List, []};
    ghost use Rattle.kinds.specs.declared.point.Point.{Point};
    ghost use Rattle.schemes.specs.PointAmounts.{Tallied, Centred};
    ghost use Rattle.schemes.specs.Readings.{joined_by};

    pub(crate) fn empty() -> Tally
        ensures { Tallied result [] }
    {
        Tally {
            count: 0,
            x: 0,
            y: 0,
            z: 0,
        }
    }

    // A ninth point is passed over.
    pub(crate) fn with(self, p: Point) -> Tally
        ensures { (ps : List Point) → Tallied self ps → Tallied result (joined_by ps p) }
    {
        if self.count >= 8 {
            return self;
        }
        Tally {
            count: self.count + 1,
            x: self.x + i64::from(p.x),
            y: self.y + i64::from(p.y),
            z: self.z + i64::from(p.z),
        }
    }

    // That of no points is 0 over 1.
    pub(crate) fn centroid(self) -> Centroid
        ensures { (ps : List Point) → Tallied self ps → Centred result ps }
    {
        let count = self.count.max(1);
        Centroid {
            x: Mean { sum: self.x, count },
            y: Mean { sum: self.y, count },
            z: Mean { sum: self.z, count },
        }
    }
}
