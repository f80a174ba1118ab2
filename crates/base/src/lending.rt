// The tables of a base, lent to whoever works from it.
ghost use Rattle.std.specs.Prelude.{◌≡◌, map, length};
ghost use Rattle.mesh.specs.Rules.{Rules};
ghost use Rattle.mesh.specs.Shape.{sides as sides_of, edges as edges_of};
ghost use Rattle.base.specs.Bases.{shape};

use crate::base::Base;
use mesh::Side;

impl Base {
    // Each vertex's dimension. Every base keeps the rules.
    pub fn dimensions(&self) -> &[u8]
        ensures value { result.now ≡ (shape self.now).dims }
        ensures rules { Rules (shape self.now) }
    {
        self.mesh.dims.as_slice()
    }

    // Each face's number of corners.
    pub fn face_sizes(&self) -> &[usize]
        ensures { result.now ≡ map length (shape self.now).faces }
    {
        self.mesh.sizes.as_slice()
    }

    // The sides of all faces, face after face.
    pub fn face_sides(&self) -> &[Side]
        ensures { result.now ≡ sides_of (shape self.now).faces }
    {
        self.mesh.sides.as_slice()
    }

    // Each edge in its first direction.
    pub fn edge_sides(&self) -> &[Side]
        ensures { result.now ≡ edges_of (shape self.now).faces }
    {
        self.mesh.edges.as_slice()
    }

    // Of each edge, whether it is a curve.
    pub fn curve_marks(&self) -> &[bool]
        ensures { result.now ≡ (shape self.now).curves }
    {
        self.curves.as_slice()
    }
}
