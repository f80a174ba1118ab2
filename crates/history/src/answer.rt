// What a form answers to a call.
use refusal::Refusal;

// What is replied to a call that is not refused.
#[derive(Clone, Copy, Debug, PartialEq, Eq)]
pub enum Reply<V> {
    // the depth that an analysis or a synthesis has reached
    Depth(usize),
    // the number of moves that survive a move or a taking back
    Count(usize),
    // the value read
    Value(V),
}

pub type Answer<V> = Result<Reply<V>, Refusal>;
