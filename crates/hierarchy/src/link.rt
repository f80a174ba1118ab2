// The six relations of a level's topology: what is listed of an edge, a face or a vertex.
#[derive(Clone, Copy, PartialEq, Eq, Debug)]
pub enum Link {
    EdgeEnds,
    EdgeFaces,
    FaceVertices,
    FaceEdges,
    VertexEdges,
    VertexFaces,
}
