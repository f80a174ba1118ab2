// The block of a level, and its arrays.
// The functions that write a block take it beside the table: a struct of both would say in each contract, in the place of `within`, that
// both stay.
ghost use Rattle.std.specs.Prelude.{◌≡◌, ◌+◌, ◌*◌, ◌^◌, ◌<◌, ◌≤◌};
ghost use Rattle.plan.specs.Layout.{begins, rooms};
ghost use Rattle.plan.specs.Written.{next};

// Where a level's block begins in the table, and the level's counts.
#[derive(Clone, Copy)]
pub(crate) struct Block {
    pub at: u32,
    pub vertices: u32,
    pub edges: u32,
    pub faces: u32,
    pub corners: u32,
}

// The arrays of a block, each with the part of the block that it begins at.
#[derive(Clone, Copy)]
pub(crate) enum Array {
    // the vertex of each half edge: 2e is edge e at its tail, 2e + 1 at its head
    Ends = 0,
    // each corner's half edge: that of its side at its vertex
    Halves = 2,
    // each corner's face
    Faces = 3,
    // the half edges of each vertex
    VertexHalfEnds = 4,
    VertexHalves = 5,
    // the corners of each vertex
    VertexCornerEnds = 7,
    VertexCorners = 8,
    // the corners whose side is each edge
    EdgeCornerEnds = 9,
    EdgeCorners = 10,
    // the corners of each face, by vertex and by edge
    FaceEnds = 11,
    FaceByVertex = 12,
    FaceByEdge = 13,
    // of each edge, 1 where it is a curve
    Curves = 14,
    // of each vertex
    Dimensions = 15,
}

impl Block {
    // Where an array begins in the table.
    pub(crate) fn start(self, array: Array) -> usize
        ensures value { result ≡ begins self array }
        ensures small { result < 2 ^ 40 }
    {
        self.at as usize + array as usize * self.corners as usize
    }

    // How many numbers it has room for.
    pub(crate) fn room(self, array: Array) -> usize
        ensures value { result ≡ rooms self array }
        ensures small { result < 2 ^ 40 }
    {
        match array {
            Array::Ends | Array::VertexHalves => 2 * self.corners as usize,
            _ => self.corners as usize,
        }
    }

    // The block of the next finer level, behind this one.
    pub(crate) fn next(self) -> Block
        requires small { self.at + 80 * self.corners ≤ 2 ^ 30 }
        requires vertices { self.vertices ≤ self.corners }
        requires edges { self.edges ≤ self.corners }
        requires faces { self.faces ≤ self.corners }
        ensures { result ≡ next self }
    {
        Block {
            at: self.at + 16 * self.corners,
            vertices: self.vertices + self.edges + self.faces,
            edges: 2 * self.edges + self.corners,
            faces: self.corners,
            corners: 4 * self.corners,
        }
    }
}
