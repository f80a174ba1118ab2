// A base in the making: what the records so far have given.
ghost use Rattle.std.specs.Prelude.{◌≡◌, not, IfOk, Some, MatchResult};
ghost use Rattle.std.specs.Result.{result_err};
ghost use Rattle.mesh.specs.Reading.{judged, blank, empty};
ghost use Rattle.mesh.specs.Records.{vertex, face, curve, end, numbers};
ghost use Rattle.mesh.specs.Shape.{edges, edge_of, occurs};
ghost use Rattle.base.specs.Drafts.{drafted, Taken, TurnedDown, Passed};
ghost use Rattle.base.specs.Views.{view};

use crate::face::{Face, are_proper};
use crate::meshes::Mesh;
use crate::record::Record;
use crate::sides::{find_edge, has_full_edge};
use mesh::Side;
use refusal::{Fault, Refusal};
use std::alloc::Global;

pub(crate) const MOST_VERTICES: usize = 256;

pub(crate) const MOST_FACES: usize = 256;

pub(crate) const MOST_EDGES: usize = 512;

#[derive(Drop)]
pub(crate) struct Draft {
    pub(crate) mesh: Mesh,
    // the edges that curve records have named
    pub(crate) named: Vec<usize>,
}

impl Draft {
    pub(crate) fn new(heap: Global) -> Draft
        ensures { drafted result ≡ blank }
    {
        Draft {
            mesh: Mesh::new(heap),
            named: Vec::new(heap),
        }
    }

    // This draft with record `number` taken in, or the row that refuses it.
    pub(crate) fn take(self, heap: Global, next: Record, number: usize) -> Result<Draft, Fault>
        ensures { MatchResult result (λ m. Taken number self (view next.entry) m) (λ f. TurnedDown f (judged number (drafted self) (view next.entry))) }
    {
        match next {
            Record::Vertex(dimension) => self.take_vertex(dimension, number),
            Record::Face(body) => self.take_face(heap, body, number),
            Record::Curve(side) => self.take_curve(side, number),
            Record::End => self.take_end(number),
        }
    }

    fn has_faces(&self) -> bool
        ensures { result ≡ not (empty (drafted self.now).faces) }
    {
        !self.mesh.sizes.is_empty()
    }

    fn has_curves(&self) -> bool
        ensures { result ≡ not (empty (drafted self.now).named) }
    {
        !self.named.is_empty()
    }

    pub(crate) fn has_named(&self, edge: usize) -> bool
        ensures { result ≡ occurs edge (drafted self.now).named }
    {
        self.named.contains(&edge)
    }

    fn take_vertex(mut self, dimension: u8, number: usize) -> Result<Draft, Fault>
        ensures { MatchResult result (λ m. Taken number self (vertex dimension) m) (λ f. TurnedDown f (judged number (drafted self) (vertex dimension))) }
    {
        self.judge_vertex(dimension, number)?;
        self.mesh.dims.push(dimension)?;
        Ok(self)
    }

    fn judge_vertex(&self, dimension: u8, number: usize) -> Result<(), Refusal>
        ensures { result_err result ≡ judged number (drafted self.now) (vertex dimension) }
    {
        if self.has_faces() || self.has_curves() {
            return Err(Refusal::OutOfOrder(number));
        }
        if dimension > 2 {
            return Err(Refusal::BadVertex(number));
        }
        if self.mesh.dims.len() >= MOST_VERTICES {
            return Err(Refusal::TooMany(number));
        }
        Ok(())
    }

    fn take_face(self, heap: Global, body: &[u8], number: usize) -> Result<Draft, Fault>
        ensures { MatchResult result (λ m. Taken number self (face (numbers body.now)) m) (λ f. TurnedDown f (judged number (drafted self) (face (numbers body.now)))) }
    {
        let face = Face::spelled(heap, body)?;
        self.judge_face(&face, number)?;
        let Draft { mesh, named } = self;
        let Some(mesh) = mesh.with_face(&face, MOST_EDGES)? else {
            return Err(Fault::Refused(Refusal::TooMany(number)));
        };
        Ok(Draft { mesh, named })
    }

    // All tests of a face but the number of edges, which are numbered only after these.
    fn judge_face(&self, next: &Face, number: usize) -> Result<(), Refusal>
        ensures { MatchResult result (λ _. Passed (drafted self.now) next.now.corners.items) (λ x. judged number (drafted self.now) (face next.now.corners.items) ≡ Some x) }
    {
        if self.has_curves() {
            return Err(Refusal::OutOfOrder(number));
        }
        if !are_proper(&next.corners, self.mesh.dims.len()) {
            return Err(Refusal::BadVertex(number));
        }
        if has_full_edge(&self.mesh.sides, &next.sides) {
            return Err(Refusal::ThirdFace(number));
        }
        if self.mesh.sizes.len() >= MOST_FACES {
            return Err(Refusal::TooMany(number));
        }
        Ok(())
    }

    fn take_curve(mut self, side: Side, number: usize) -> Result<Draft, Fault>
        ensures { MatchResult result (λ m. Taken number self (curve side) m) (λ f. TurnedDown f (judged number (drafted self) (curve side))) }
    {
        let edge = self.judge_curve(side, number)?;
        self.named.push(edge)?;
        Ok(self)
    }

    // The edge that a curve record names.
    fn judge_curve(&self, side: Side, number: usize) -> Result<usize, Refusal>
        ensures judged { result_err result ≡ judged number (drafted self.now) (curve side) }
        ensures edge { IfOk result (λ e. edge_of (edges (drafted self.now).faces) side ≡ Some e) }
    {
        if !are_proper(&[side.tail, side.head], self.mesh.dims.len()) {
            return Err(Refusal::BadVertex(number));
        }
        let Some(edge) = find_edge(&self.mesh.edges, side) else {
            return Err(Refusal::BadCurve(number));
        };
        if self.has_named(edge) {
            return Err(Refusal::BadCurve(number));
        }
        Ok(edge)
    }

    fn take_end(self, number: usize) -> Result<Draft, Fault>
        ensures { MatchResult result (λ m. Taken number self end m) (λ f. TurnedDown f (judged number (drafted self) end)) }
    {
        if !self.has_faces() {
            return Err(Fault::Refused(Refusal::TooMany(number)));
        }
        Ok(self)
    }
}
