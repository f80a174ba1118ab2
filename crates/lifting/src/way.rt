// The two ways through the levels.
#[derive(Clone, Copy)]
pub enum Way {
    // analysis: to the next coarser depth, adding amounts
    Down,
    // synthesis: to the next finer depth, adding their opposites
    Up,
}
