// How many vertices, edges and faces a base has.
#[derive(Clone, Copy, Debug)]
pub struct Counts {
    pub vertices: usize,
    pub edges: usize,
    pub faces: usize,
}
