// What a settled block tells. Each question is a few loads.
ghost use Rattle.std.specs.Prelude.{◌≡◌, ◌+◌, ◌*◌, ◌^◌, ◌<◌, slice_index};
ghost use Rattle.plan.specs.Layout.{begins};
ghost use Rattle.plan.specs.Loaded.{listed, stands, loaded_curve, loaded_dimension, span_in, span_of};

use crate::block::Array;
use crate::scatter::load;
use crate::span::Span;
use crate::view::View;
use hierarchy::Link;

impl View<'_> {
    // List `i` of those that stand in a row, by where each ends.
    fn span_in(&self, ends: Array, list: Array, i: usize) -> Span
        requires { i < 2 ^ 32 }
        ensures { stands result ≡ span_in self.now.table.now (begins self.now.block ends) (begins self.now.block list) i }
    {
        let ends = self.block.start(ends);
        let first = if i == 0 {
            0
        } else {
            load(self.table, ends + (i - 1))
        };
        Span {
            from: self.block.start(list) + first,
            count: load(self.table, ends + i).saturating_sub(first),
        }
    }

    pub(crate) fn find_span(&self, link: Link, of: usize) -> Span
        ensures { stands result ≡ span_of self.now.table.now self.now.block link of }
    {
        let vertices = self.block.vertices as usize;
        let edges = self.block.edges as usize;
        let faces = self.block.faces as usize;
        match link {
            Link::EdgeEnds if of < edges => Span {
                from: self.block.start(Array::Ends) + 2 * of,
                count: 2,
            },
            Link::EdgeFaces if of < edges => {
                self.span_in(Array::EdgeCornerEnds, Array::EdgeCorners, of)
            }
            Link::FaceVertices if of < faces => {
                self.span_in(Array::FaceEnds, Array::FaceByVertex, of)
            }
            Link::FaceEdges if of < faces => self.span_in(Array::FaceEnds, Array::FaceByEdge, of),
            Link::VertexEdges if of < vertices => {
                self.span_in(Array::VertexHalfEnds, Array::VertexHalves, of)
            }
            Link::VertexFaces if of < vertices => {
                self.span_in(Array::VertexCornerEnds, Array::VertexCorners, of)
            }
            _ => Span::none(),
        }
    }

    // Whether an edge is a curve.
    pub(crate) fn is_curve(&self, edge: usize) -> bool
        ensures { result ≡ loaded_curve self.now.table.now self.now.block edge }
    {
        edge < self.block.edges as usize
            && load(self.table, self.block.start(Array::Curves) + edge) == 1
    }

    // A vertex's dimension.
    pub(crate) fn dimension(&self, vertex: usize) -> usize
        ensures { result ≡ loaded_dimension self.now.table.now self.now.block vertex }
    {
        if vertex < self.block.vertices as usize {
            load(self.table, self.block.start(Array::Dimensions) + vertex)
        } else {
            0
        }
    }
}

// Member `k` of a list; 0 past its end.
pub(crate) fn member(table: &[u32], list: Span, k: usize) -> usize
    ensures { result ≡ slice_index (listed table.now list) k }
{
    if k < list.count {
        load(table, list.from + k)
    } else {
        0
    }
}
