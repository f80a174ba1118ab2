// The type of a curve. Its ghost fields are what every curve keeps.
ghost use Rattle.std.specs.Prelude.{◌≤◌, if◌then◌else◌};

#[derive(Clone, Copy, PartialEq, Eq, Debug)]
pub struct Curve {
    // how many points the coarsest level has
    pub(crate) points: usize,
    // whether the last point is joined to the first
    pub(crate) closed: bool,
    // how many levels of subdivision
    pub(crate) levels: usize,
    ghost enough: { (if closed then 3 else 2) ≤ points },
    ghost bounded: { points ≤ 1024 },
    ghost refined: { 1 ≤ levels },
    ghost shallow: { levels ≤ 5 },
}
