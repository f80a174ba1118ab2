// A mesh of polygons. Its ghost fields are what every mesh keeps: the sides and the edges are those of the faces.
ghost use Rattle.std.specs.Prelude.{◌≡◌, ◌<◌, ◌≤◌, ◌∷◌, ◌++◌, [], length, sum, IfOk, IfSome, MatchOption};
ghost use Rattle.mesh.specs.Shape.{sides as sides_of, edges as edges_of, marked};
ghost use Rattle.base.specs.Faces.{parts};

use crate::face::Face;
use crate::sides::number_edges;
use mesh::Side;
use std::alloc::{AllocError, Global};

// A corner's number is its place among all sides, so the faces' sides stand in one table, by which `Base` lends them.
#[derive(Drop)]
pub(crate) struct Mesh {
    // each vertex's dimension
    pub(crate) dims: Vec<u8>,
    // each face's number of corners
    pub(crate) sizes: Vec<usize>,
    // the sides of all faces, face after face
    pub(crate) sides: Vec<Side>,
    // each edge in its first direction
    pub(crate) edges: Vec<Side>,
    ghost total: { sum sizes.items ≡ length sides.items },
    ghost sided: { sides.items ≡ sides_of (parts sizes.items sides.items) },
    ghost edged: { edges.items ≡ edges_of (parts sizes.items sides.items) },
}

impl Mesh {
    pub(crate) fn new(heap: Global) -> Mesh
        ensures dims { result.dims.items ≡ [] }
        ensures faces { parts result.sizes.items result.sides.items ≡ [] }
    {
        Mesh {
            dims: Vec::new(heap),
            sizes: Vec::new(heap),
            sides: Vec::new(heap),
            edges: Vec::new(heap),
        }
    }

    // This mesh with one face more, if it then has no more than `most` edges.
    // They are counted before memory is taken for anything else, so that too many are told as that.
    pub(crate) fn with_face(self, face: &Face, most: usize) -> Result<Option<Mesh>, AllocError>
        ensures few { IfOk result (λ o. MatchOption o (most < length (edges_of (parts self.sizes.items self.sides.items ++ face.now.corners.items ∷ []))) (λ m. length m.edges.items ≤ most)) }
        ensures dims { IfOk result (λ o. IfSome o (λ m. m.dims ≡ self.dims)) }
        ensures faces { IfOk result (λ o. IfSome o (λ m. parts m.sizes.items m.sides.items ≡ parts self.sizes.items self.sides.items ++ face.now.corners.items ∷ [])) }
    {
        let Mesh {
            dims,
            mut sizes,
            mut sides,
            mut edges,
        } = self;
        number_edges(&mut edges, &face.sides)?;
        if edges.len() > most {
            return Ok(None);
        }
        sides.extend_from_slice(&face.sides)?;
        sizes.push(face.sides.len())?;
        Ok(Some(Mesh {
            dims,
            sizes,
            sides,
            edges,
        }))
    }

    // The edges whose mark is set.
    pub(crate) fn marked_edges(&self, heap: Global, marks: &[bool]) -> Result<Vec<Side>, AllocError>
        ensures { IfOk result (λ v. v.items ≡ marked (edges_of (parts self.now.sizes.items self.now.sides.items)) marks.now) }
    {
        self.edges
            .iter()
            .zip(marks)
            .filter_map(|(edge, mark)| mark.then_some(*edge))
            .collect(heap)
    }
}
