// What a point reads, gathered into a running sum, and how much it is changed by.
ghost use Rattle.std.specs.Prelude.{◌≡◌, ℕ, Bool, filter, length};
ghost use Rattle.schemes.specs.declared.steps.Class.TheVariants.{Vertex, Edge, Face};
ghost use Rattle.schemes.specs.declared.steps.Step.TheVariants.{Second};
ghost use Rattle.lifting.specs.Places.{dimension_of};
ghost use Rattle.lifting.specs.Reading.{s_lift_reads, w_lift_reads, values_of};
ghost use Rattle.lifting.specs.Gathering.{Laid, start_of, target_class, Tells, Gathered};
ghost use Rattle.lifting.specs.HalfSteps.{rule, amount_from, amount_at};

use crate::layout::Layout;
use hierarchy::{Hierarchy, Link, members_of};
use schemes::{Class, Scheme, Step};

// The place of the first point of a class.
pub(crate) fn first(at: Layout, class: Class) -> usize
    ensures { result ≡ start_of at class }
{
    match class {
        Class::Vertex => 0,
        Class::Edge => at.edges,
        Class::Face => at.faces,
    }
}

// The class of what a relation lists.
fn target(link: Link) -> Class
    ensures { result ≡ target_class link }
{
    match link {
        Link::EdgeEnds | Link::FaceVertices => Class::Vertex,
        Link::FaceEdges | Link::VertexEdges => Class::Edge,
        Link::EdgeFaces | Link::VertexFaces => Class::Face,
    }
}

// The points of a level as they stand before one of them is changed.
#[derive(Drop)]
pub(crate) struct Points<'a, H: Hierarchy, S: Scheme> {
    pub(crate) h: &'a H,
    pub(crate) s: &'a S,
    pub(crate) values: &'a [S::Value],
    pub(crate) at: Layout,
    ghost laid: { Laid (H.meaning h.now) at (length values.now) },
}

// The four lifts ask a scheme with class and dimension as constants where they can: the cases of its amount are then decided when the
// program is compiled, and all of it is worked into the loop over the points.
impl<'a, H: Hierarchy, S: Scheme> Points<'a, H, S> {
    // Adds to the sum the values at what a relation lists and is read: of none of this class before, to all of them.
    fn gather<F: Fn(usize) -> bool>(
        &self,
        link: Link,
        of: usize,
        is_read: F,
        start: S::Sum,
    ) -> S::Sum
        requires { F.IsAlwaysCallable is_read }
        ensures { (read : ℕ → Bool) → Tells (F.post is_read) read → Gathered S.Scheme.holds (target_class link) (values_of (H.meaning self.now.h.now) S.Value.ValueKind.zero self.now.values.now self.now.at.level (target_class link) (filter read ((H.meaning self.now.h.now).list self.now.at.level link of))) start result }
    {
        let class = target(link);
        let from = first(self.at, class);
        let values = self.values;
        let mut sum = start;
        for number in members_of(self.h, self.at.level, link, of) {
            if is_read(number) {
                sum = self.s.gather(sum, class, values[from + number]);
            }
        }
        sum
    }

    fn dimension(&self, class: Class, number: usize) -> u8
        ensures { result ≡ dimension_of (H.meaning self.now.h.now) self.now.at.level class number }
    {
        match class {
            Class::Vertex => self.h.dimension(self.at.level, number),
            Class::Edge => {
                if self.h.is_curve(self.at.level, number) {
                    1
                } else {
                    2
                }
            }
            Class::Face => 2,
        }
    }

    // How much an s-lift adds to a vertex. It reads by its dimension its edges and faces, its curve edges, or nothing.
    fn s_lift_vertex(&self, step: Step, vertex: usize) -> S::Value
        ensures { result ≡ amount_from (H.meaning self.now.h.now) (rule S.Scheme S.Value.ValueKind self.now.s.now) step self.now.at.level Vertex vertex (s_lift_reads (H.meaning self.now.h.now) self.now.at.level Vertex vertex) self.now.values.now }
    {
        match self.h.dimension(self.at.level, vertex) {
            2 => {
                let edges = self.gather(Link::VertexEdges, vertex, |_| true, self.s.start());
                let faces = self.gather(Link::VertexFaces, vertex, |_| true, edges);
                self.s.amount(step, Class::Vertex, 2, faces)
            }
            1 => {
                let is_curve = |edge: usize| self.h.is_curve(self.at.level, edge);
                let curves = self.gather(Link::VertexEdges, vertex, is_curve, self.s.start());
                self.s.amount(step, Class::Vertex, 1, curves)
            }
            _ => self.s.amount(step, Class::Vertex, 0, self.s.start()),
        }
    }

    // How much an s-lift adds to an edge. It reads its faces, or nothing if it is a curve.
    fn s_lift_edge(&self, step: Step, edge: usize) -> S::Value
        ensures { result ≡ amount_from (H.meaning self.now.h.now) (rule S.Scheme S.Value.ValueKind self.now.s.now) step self.now.at.level Edge edge (s_lift_reads (H.meaning self.now.h.now) self.now.at.level Edge edge) self.now.values.now }
    {
        if self.h.is_curve(self.at.level, edge) {
            return self.s.amount(step, Class::Edge, 1, self.s.start());
        }
        let faces = self.gather(Link::EdgeFaces, edge, |_| true, self.s.start());
        self.s.amount(step, Class::Edge, 2, faces)
    }

    // How much a w-lift adds to a face. It reads its vertices and edges.
    fn w_lift_face(&self, face: usize) -> S::Value
        ensures { result ≡ amount_from (H.meaning self.now.h.now) (rule S.Scheme S.Value.ValueKind self.now.s.now) Second self.now.at.level Face face (w_lift_reads (H.meaning self.now.h.now) self.now.at.level Face face) self.now.values.now }
    {
        let vertices = self.gather(Link::FaceVertices, face, |_| true, self.s.start());
        let edges = self.gather(Link::FaceEdges, face, |_| true, vertices);
        self.s.amount(Step::Second, Class::Face, 2, edges)
    }

    // How much a w-lift adds to an edge. It reads its ends.
    fn w_lift_edge(&self, edge: usize) -> S::Value
        ensures { result ≡ amount_from (H.meaning self.now.h.now) (rule S.Scheme S.Value.ValueKind self.now.s.now) Second self.now.at.level Edge edge (w_lift_reads (H.meaning self.now.h.now) self.now.at.level Edge edge) self.now.values.now }
    {
        let ends = self.gather(Link::EdgeEnds, edge, |_| true, self.s.start());
        self.s.amount(
            Step::Second,
            Class::Edge,
            self.dimension(Class::Edge, edge),
            ends,
        )
    }

    // How much a step adds to a point.
    pub(crate) fn amount(&self, step: Step, class: Class, number: usize) -> S::Value
        ensures { result ≡ amount_at (H.meaning self.now.h.now) (rule S.Scheme S.Value.ValueKind self.now.s.now) step self.now.at.level class number self.now.values.now }
    {
        match (step, class) {
            (Step::First | Step::Third, Class::Vertex) => self.s_lift_vertex(step, number),
            (Step::First | Step::Third, Class::Edge) => self.s_lift_edge(step, number),
            (Step::Second, Class::Face) => self.w_lift_face(number),
            (Step::Second, Class::Edge) => self.w_lift_edge(number),
            // such half steps are not made, and read nothing
            (Step::First | Step::Third, Class::Face) | (Step::Second, Class::Vertex) => {
                self.s
                    .amount(step, class, self.dimension(class, number), self.s.start())
            }
        }
    }
}
