// What an opened form keeps beside the memory that belongs to it.
#[derive(Clone, Copy, Debug, PartialEq, Eq)]
pub struct State {
    // the present depth, 0 at the coarsest
    pub depth: usize,
    // how many moves survive
    pub survivors: usize,
    // how many slots the move list has
    pub slots: usize,
}
