// A curve's answers to the questions of a hierarchy.
ghost use Rattle.std.specs.Prelude.{◌≡◌, ◌≤◌};
ghost use Rattle.hierarchy.specs.declared.link.Link.TheVariants.{EdgeEnds, VertexEdges};
ghost use Rattle.levels.specs.Incidence.{incident};
ghost use Rattle.levels.proofs.CurveLawful.{curve_lawful};
ghost use Rattle.curve.specs.Listed.{listed};
ghost use Rattle.curve.specs.Made.{coarsest, means, level_at};

use crate::curve::Curve;
use crate::few::Few;
use crate::level::CurveLevel;
use hierarchy::{Hierarchy, Link};

impl CurveLevel<'_> {
    // The two ends of an edge: the vertices at its position and the one after it.
    fn ends(self, edge: usize) -> Few
        ensures { listed result ≡ incident (level_at self.entry) EdgeEnds edge }
    {
        if edge >= self.edges() {
            return Few::Nothing;
        }
        let tail = self.numbered(edge);
        let head = self.numbered(self.next_position(edge));
        if tail < head {
            Few::Two(tail, head)
        } else {
            Few::Two(head, tail)
        }
    }

    // The edges of a vertex: those before and after its position.
    fn edges_of(self, vertex: usize) -> Few
        ensures { listed result ≡ incident (level_at self.entry) VertexEdges vertex }
    {
        if vertex >= self.vertices() {
            return Few::Nothing;
        }
        let last = self.edges() - 1;
        let position = self.placed(vertex);
        if position == 0 {
            return if self.curve.closed {
                Few::Two(0, last)
            } else {
                Few::One(0)
            };
        }
        if position > last {
            return Few::One(last);
        }
        Few::Two(position - 1, position)
    }
}

impl Curve {
    // The dimension on the coarsest level: 0 at the ends of an open curve. Every level keeps it, and no later vertex is an end.
    fn coarse_dimension(&self, vertex: usize) -> u8
        ensures { result ≡ (coarsest self.now).dimension vertex }
    {
        if !self.closed && (vertex == 0 || vertex == self.points - 1) {
            0
        } else {
            1
        }
    }
}

impl Hierarchy for Curve {
    type Listing = Few;

    ghost meaning = { means };

    ghost lawful = { λ c. curve_lawful c.closed c.points c.levels c.enough c.bounded c.refined c.shallow };

    ghost listed = { λ _ few. listed few };

    fn levels(&self) -> usize {
        self.levels
    }

    fn vertices(&self, level: usize) -> usize {
        self.at(level).map_or(0, |here| here.vertices())
    }

    fn edges(&self, level: usize) -> usize {
        self.at(level).map_or(0, |here| here.edges())
    }

    fn faces(&self, _level: usize) -> usize {
        0
    }

    fn places(&self) -> usize {
        self.finest()
    }

    fn list(&self, level: usize, link: Link, of: usize) -> Few {
        let Some(here) = self.refined(level) else {
            return Few::Nothing;
        };
        match link {
            Link::EdgeEnds => here.ends(of),
            Link::VertexEdges => here.edges_of(of),
            Link::EdgeFaces | Link::FaceVertices | Link::FaceEdges | Link::VertexFaces => {
                Few::Nothing
            }
        }
    }

    fn list_length(&self, list: Few) -> usize {
        list.count()
    }

    fn list_member(&self, list: Few, k: usize) -> usize {
        list.get(k)
    }

    fn is_curve(&self, level: usize, edge: usize) -> bool {
        self.refined(level).is_some_and(|here| edge < here.edges())
    }

    fn dimension(&self, level: usize, vertex: usize) -> u8 {
        match self.refined(level) {
            Some(here) if vertex < here.vertices() => self.coarse_dimension(vertex),
            _ => 0,
        }
    }
}
