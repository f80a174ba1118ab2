// The rules that can be judged only once all records are read.
ghost use Rattle.std.specs.Prelude.{◌≡◌, not, length, min, IfOk, MatchResult, slice_index};
ghost use Rattle.mesh.specs.Lowest.{lowest};
ghost use Rattle.mesh.specs.Reading.{checked, finished, open_edge, bad_valence};
ghost use Rattle.mesh.specs.Rules.{fits};
ghost use Rattle.mesh.specs.Shape.{degree, edges};
ghost use Rattle.base.specs.Drafts.{drafted, Failed, Judged};
ghost use Rattle.base.specs.Meshes.{with_marks};

use crate::draft::Draft;
use crate::sides::{count_at, count_uses, has_corner};
use mesh::Side;
use refusal::{Fault, Refusal};
use std::alloc::{AllocError, Global};

const MOST_EDGES_AT_VERTEX: usize = 8;

fn dimension_fits(dimension: u8, curves: usize) -> bool
    ensures { result ≡ fits dimension curves }
{
    match dimension {
        2 => curves == 0,
        1 => curves == 2,
        _ => true,
    }
}

// The lowest vertex whose dimension does not fit the curve edges at it.
fn first_bad_dimension(dims: &[u8], curve_edges: &[Side]) -> Option<usize>
    ensures { result ≡ lowest (λ v. not (fits (slice_index dims.now v) (degree curve_edges.now v))) (length dims.now) }
{
    dims.iter().enumerate().position(|(v, dimension)| !dimension_fits(
        *dimension,
        count_at(curve_edges, v),
    ))
}

impl Draft {
    // For each edge, whether it was named.
    fn mark_curves(&self, heap: Global) -> Result<Vec<bool>, AllocError>
        ensures { IfOk result (λ v. v.items ≡ (finished (drafted self.now)).curves) }
    {
        (0..self.mesh.edges.len())
            .map(|edge| self.has_named(edge))
            .collect(heap)
    }

    // Of the edges that have a mark here, the lowest that has one face and is no curve.
    fn first_open_edge(&self, curves: &[bool]) -> Option<usize>
        ensures { result ≡ lowest (open_edge (with_marks self.now.mesh curves.now)) (min (length (edges (drafted self.now).faces)) (length curves.now)) }
    {
        let sides = self.mesh.sides.as_slice();
        let mut marked = self.mesh.edges.iter().zip(curves);
        marked.position(|(edge, curve)| count_uses(sides, *edge) == 1 && !*curve)
    }

    // The lowest vertex that lies in no face, or has too many edges.
    fn first_bad_valence(&self) -> Option<usize>
        ensures { result ≡ lowest (bad_valence (finished (drafted self.now))) (length (drafted self.now).dims) }
    {
        (0..self.mesh.dims.len()).find(|v| !has_corner(&self.mesh.sides, *v)
            || count_at(&self.mesh.edges, *v) > MOST_EDGES_AT_VERTEX)
    }

    // The marks of the edges, once this draft is finished and keeps the rules.
    // They are made before the rules are judged: want of memory for them comes before a refusal.
    pub(crate) fn judge(&self, heap: Global) -> Result<Vec<bool>, Fault>
        ensures { MatchResult result (λ v. Judged self.now v.items) (λ f. Failed f (checked (finished (drafted self.now)))) }
    {
        let curves = self.mark_curves(heap)?;
        if let Some(edge) = self.first_open_edge(&curves) {
            return Err(Fault::Refused(Refusal::OpenEdge(edge)));
        }
        if let Some(vertex) = self.first_bad_valence() {
            return Err(Fault::Refused(Refusal::BadValence(vertex)));
        }
        let curve_edges = self.mesh.marked_edges(heap, &curves)?;
        if let Some(vertex) = first_bad_dimension(&self.mesh.dims, &curve_edges) {
            return Err(Fault::Refused(Refusal::BadDimension(vertex)));
        }
        Ok(curves)
    }
}
