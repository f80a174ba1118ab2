// One level of a curve. Its ghost field says that the curve has that level.
ghost use Rattle.std.specs.Prelude.{◌≤◌};

use crate::curve::Curve;

// It refers to its curve: with a copy of it, a transform over a curve took a fifth longer.
#[derive(Clone, Copy)]
pub(crate) struct CurveLevel<'c> {
    pub(crate) curve: &'c Curve,
    pub(crate) level: usize,
    ghost there: { level ≤ curve.now.levels },
}
