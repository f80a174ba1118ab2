// A move as the move list keeps it: the amount, the place at which it was added, and the depth at which it was made.
#[derive(Clone, Copy, Debug, PartialEq, Eq)]
pub struct Slot<V> {
    pub place: usize,
    pub depth: usize,
    pub amount: V,
}
