// The running sum of the points read, by class.
ghost use Rattle.std.specs.Prelude.{◌≡◌};
ghost use Rattle.kinds.specs.declared.point.Point.{Point};
ghost use Rattle.schemes.specs.PointAmounts.{Summed};
ghost use Rattle.schemes.specs.Readings.{Reads, none_read, more};

use crate::steps::Class;
use crate::tally::Tally;
use kinds::Point;

#[derive(Clone, Copy)]
pub struct PointSum {
    pub(crate) vertices: Tally,
    pub(crate) edges: Tally,
    pub(crate) faces: Tally,
}

impl PointSum {
    pub(crate) fn empty() -> PointSum
        ensures { Summed result none_read }
    {
        let none = Tally::empty();
        PointSum {
            vertices: none,
            edges: none,
            faces: none,
        }
    }

    pub(crate) fn with(self, class: Class, p: Point) -> PointSum
        ensures { (q : Reads Point) → Summed self q → Summed result (more class p q) }
    {
        match class {
            Class::Vertex => PointSum {
                vertices: self.vertices.with(p),
                ..self
            },
            Class::Edge => PointSum {
                edges: self.edges.with(p),
                ..self
            },
            Class::Face => PointSum {
                faces: self.faces.with(p),
                ..self
            },
        }
    }
}
