// Sides of faces and the edges that they run along: searches and counts.
ghost use Rattle.std.specs.Prelude.{◌≡◌, count_by, fold, nat_eq, nat_le, OnOk};
ghost use Rattle.mesh.specs.Shape.{any, joins, edge_of, degree, with_side};

use mesh::Side;
use std::alloc::AllocError;

// The number of the edge that runs between the ends of `side`.
pub(crate) fn find_edge(edges: &[Side], side: Side) -> Option<usize>
    ensures { result ≡ edge_of edges.now side }
{
    edges.iter().position(|edge| edge.joins(side))
}

// How many of `sides` run along `edge`.
// A sum runs in one loop: `filter` with `count` is a loop in a loop, and takes half as long again.
pub(crate) fn count_uses(sides: &[Side], edge: Side) -> usize
    ensures { result ≡ count_by (joins edge) sides.now }
{
    sides
        .iter()
        .map(|side| usize::from(edge.joins(*side)))
        .sum()
}

// How many of `edges` end at `vertex`, as a sum for the same reason.
pub(crate) fn count_at(edges: &[Side], vertex: usize) -> usize
    ensures { result ≡ degree edges.now vertex }
{
    edges
        .iter()
        .map(|edge| usize::from(edge.ends_at(vertex)))
        .sum()
}

// Whether some face has a corner at `vertex`: each corner is the tail of one side.
pub(crate) fn has_corner(sides: &[Side], vertex: usize) -> bool
    ensures { result ≡ any (λ s. nat_eq s.tail vertex) sides.now }
{
    sides.iter().any(|side| usize::from(side.tail) == vertex)
}

// Whether a side of `face` runs along an edge that has two faces already.
pub(crate) fn has_full_edge(sides: &[Side], face: &[Side]) -> bool
    ensures { result ≡ any (λ s. nat_le 2 (count_by (joins s) sides.now)) face.now }
{
    face.iter().any(|side| count_uses(sides, *side) >= 2)
}

// Numbers the edges along which `sides` are the first to run.
pub(crate) fn number_edges(edges: &mut Vec<Side>, sides: &[Side]) -> Result<(), AllocError>
    ensures { OnOk result (edges.new.items ≡ fold with_side edges.old.items sides.now) }
{
    for side in sides {
        if find_edge(edges, *side).is_none() {
            edges.push(*side)?;
        }
    }
    Ok(())
}
