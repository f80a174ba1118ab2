// Making a curve, or saying why there is none.
ghost use Rattle.std.specs.Prelude.{◌≡◌, ◌≤◌};
ghost use Rattle.curve.specs.Made.{Making, means, has_size};

use crate::curve::Curve;
use hierarchy::{Hierarchy, has_levels};
use refusal::Refusal;

// Whether a curve may have so many points.
fn has_size(points: usize, closed: bool) -> bool
    ensures { result ≡ has_size closed points }
{
    let least = if closed { 3 } else { 2 };
    (least..=1024).contains(&points)
}

impl Curve {
    // The curve of so many points and levels. The number of points is judged first.
    pub fn new(points: usize, closed: bool, levels: usize) -> Result<Curve, Refusal>
        ensures { Making closed points levels result }
    {
        if !has_size(points, closed) {
            return Err(Refusal::CurveSize(points));
        }
        if !has_levels(levels) {
            return Err(Refusal::LevelCount(levels));
        }
        Ok(Curve {
            points,
            closed,
            levels,
        })
    }

    // How many vertices the finest level has.
    pub fn finest(&self) -> usize
        ensures value { result ≡ (means self.now).vertices self.now.levels }
        ensures few { result ≤ 32768 }
    {
        self.vertices(self.levels)
    }
}
