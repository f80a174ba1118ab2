// A face that a record gives: its corners, and the sides between them.
ghost use Rattle.std.specs.Prelude.{◌≡◌, IfOk};
ghost use Rattle.mesh.specs.Records.{numbers};
ghost use Rattle.mesh.specs.Rules.{proper};
ghost use Rattle.mesh.specs.Shape.{around};

use mesh::Side;
use std::alloc::{AllocError, Global};

#[derive(Drop)]
pub(crate) struct Face {
    pub(crate) corners: Vec<u16>,
    // from corner 0 on
    pub(crate) sides: Vec<Side>,
    ghost round: { sides.items ≡ around corners.items },
}

impl Face {
    // The face whose corners the bytes of a record's body spell.
    pub(crate) fn spelled(heap: Global, body: &[u8]) -> Result<Face, AllocError>
        ensures { IfOk result (λ f. f.corners.items ≡ numbers body.now) }
    {
        let corners = vertex_numbers(heap, body)?;
        let sides = sides_around(heap, &corners)?;
        Ok(Face { corners, sides })
    }
}

// The vertex numbers that the bytes spell.
fn vertex_numbers(heap: Global, body: &[u8]) -> Result<Vec<u16>, AllocError>
    ensures { IfOk result (λ v. v.items ≡ numbers body.now) }
{
    let (pairs, _) = body.as_chunks::<2>();
    pairs
        .iter()
        .map(|[low, high]| u16::from_le_bytes([*low, *high]))
        .collect(heap)
}

// The sides of a face, from its corner 0 on.
fn sides_around(heap: Global, corners: &[u16]) -> Result<Vec<Side>, AllocError>
    ensures { IfOk result (λ v. v.items ≡ around corners.now) }
{
    let (first, rest) = corners.split_at(corners.len().min(1));
    corners
        .iter()
        .zip(rest.iter().chain(first))
        .map(|(tail, head)| Side {
            tail: *tail,
            head: *head,
        })
        .collect(heap)
}

// Whether all corners are among so many vertices, each once.
// A corner is compared with those after it, which the pattern gives by name and an iterator only by an index.
pub(crate) fn are_proper(corners: &[u16], vertices: usize) -> bool
    ensures { result ≡ proper vertices corners.now }
{
    let mut rest = corners;
    while let [corner, after @ ..] = rest {
        if usize::from(*corner) >= vertices || after.contains(corner) {
            return false;
        }
        rest = after;
    }
    true
}
