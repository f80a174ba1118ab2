// Where the points of a level stand among the values. The vertices come first.
#[derive(Clone, Copy)]
pub(crate) struct Layout {
    pub(crate) level: usize,
    // the place of the first edge
    pub(crate) edges: usize,
    // the place of the first face
    pub(crate) faces: usize,
}
