// The level that a block stands for, and the next finer one, read number by number.
ghost use Rattle.std.specs.Prelude.{◌≡◌, ◌+◌, ◌*◌, ◌^◌, ◌<◌, ◌≤◌, if◌then◌else◌, nat_eq};
ghost use Rattle.levels.specs.Finer.{finer, half_at as half_of};
ghost use Rattle.plan.specs.Decoded.{shown, end_at, corner_half};
ghost use Rattle.plan.specs.Layout.{reads};
ghost use Rattle.plan.specs.declared.block.Array.TheVariants.{Ends};

use crate::block::Array;
use crate::view::View;

// The half of an edge that ends at a vertex, by where the edge runs from.
fn half_at(edge: usize, tail: usize, vertex: usize) -> usize
    requires { edge < 2 ^ 63 }
    ensures value { result ≡ 2 * edge + (if nat_eq tail vertex then 0 else 1) }
    ensures small { result ≤ 2 * edge + 1 }
{
    if tail == vertex {
        2 * edge
    } else {
        2 * edge + 1
    }
}

impl View<'_> {
    // The vertex of a half edge.
    pub(crate) fn end(&self, half: usize) -> usize
        ensures value { result ≡ reads self.now.table.now self.now.block Ends half }
        ensures small { result < 2 ^ 32 }
    {
        self.entry(Array::Ends, half)
    }

    pub(crate) fn vertex(&self, corner: usize) -> usize
        ensures value { result ≡ (shown self.now).vertex corner }
        ensures small { result < 2 ^ 32 }
    {
        self.end(self.entry(Array::Halves, corner))
    }

    pub(crate) fn side(&self, corner: usize) -> usize
        ensures value { result ≡ (shown self.now).side corner }
        ensures small { result < 2 ^ 32 }
    {
        self.entry(Array::Halves, corner) / 2
    }

    pub(crate) fn face(&self, corner: usize) -> usize
        ensures value { result ≡ (shown self.now).face corner }
        ensures small { result < 2 ^ 32 }
    {
        self.entry(Array::Faces, corner)
    }

    fn curve(&self, edge: usize) -> bool
        ensures { result ≡ (shown self.now).curve edge }
    {
        self.entry(Array::Curves, edge) == 1
    }

    // The corner before this one round its face.
    fn back(&self, corner: usize) -> usize
        requires { corner < 2 ^ 62 }
        ensures value { result ≡ (shown self.now).back corner }
        ensures small { result < 2 ^ 62 }
    {
        let face = self.face(corner);
        if corner == self.list_start(Array::FaceEnds, face) {
            self.entry(Array::FaceEnds, face).saturating_sub(1)
        } else {
            corner.saturating_sub(1)
        }
    }

    // The half of an edge that ends at a vertex.
    fn half_at(&self, edge: usize, vertex: usize) -> usize
        requires { edge < 2 ^ 32 }
        ensures value { result ≡ half_of (shown self.now) edge vertex }
        ensures small { result ≤ 2 * edge + 1 }
    {
        half_at(edge, self.end(2 * edge), vertex)
    }

    // The vertex of a half edge of the next finer level: an edge's first half runs from its tail, and its second one to its head.
    pub(crate) fn fine_end(&self, half: usize) -> usize
        ensures { result ≡ end_at (finer (shown self.now)) half }
    {
        let vertices = self.block.vertices as usize;
        let edges = self.block.edges as usize;
        if half >= 4 * edges {
            let corner = half / 2 - 2 * edges;
            return if half % 2 == 0 {
                vertices + self.side(corner)
            } else {
                vertices + edges + self.face(corner)
            };
        }
        match half % 4 {
            0 | 3 => self.end(half / 2),
            _ => vertices + half / 4,
        }
    }

    fn fine_vertex(&self, corner: usize) -> usize
        ensures { result ≡ (finer (shown self.now)).vertex corner }
    {
        let vertices = self.block.vertices as usize;
        let from = corner / 4;
        match corner % 4 {
            0 => self.vertex(from),
            1 => vertices + self.side(from),
            2 => vertices + self.block.edges as usize + self.face(from),
            _ => vertices + self.side(self.back(from)),
        }
    }

    fn fine_side(&self, corner: usize) -> usize
        ensures value { result ≡ (finer (shown self.now)).side corner }
        ensures small { result < 2 ^ 63 }
    {
        let edges = self.block.edges as usize;
        let from = corner / 4;
        match corner % 4 {
            0 => self.half_at(self.side(from), self.vertex(from)),
            1 => 2 * edges + from,
            2 => 2 * edges + self.back(from),
            _ => self.half_at(self.side(self.back(from)), self.vertex(from)),
        }
    }

    // The half edge of a corner of the next finer level.
    pub(crate) fn fine_half(&self, corner: usize) -> usize
        ensures { result ≡ corner_half (finer (shown self.now)) corner }
    {
        let side = self.fine_side(corner);
        half_at(side, self.fine_end(2 * side), self.fine_vertex(corner))
    }

    // Whether an edge of the next finer level is a curve.
    pub(crate) fn fine_curve(&self, edge: usize) -> bool
        ensures { result ≡ (finer (shown self.now)).curve edge }
    {
        edge < 2 * self.block.edges as usize && self.curve(edge / 2)
    }

    pub(crate) fn fine_dimension(&self, vertex: usize) -> usize
        ensures { result ≡ (finer (shown self.now)).dimension vertex }
    {
        let vertices = self.block.vertices as usize;
        if vertex < vertices {
            return self.entry(Array::Dimensions, vertex);
        }
        let edge = vertex - vertices;
        if edge < self.block.edges as usize && self.curve(edge) {
            1
        } else {
            2
        }
    }
}
