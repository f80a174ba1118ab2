// What a form can be asked.
#[derive(Clone, Copy, Debug, PartialEq, Eq)]
pub enum Request<V> {
    // one depth coarser
    Analyse,
    // one depth finer
    Synthesise,
    // add the amount at the place
    Move(usize, V),
    // undo the last surviving move
    TakeBack,
    // the value at the place
    Read(usize),
}

// A request, with the lengths of the points and of the move list that are lent for it.
#[derive(Clone, Copy, Debug, PartialEq, Eq)]
pub struct Call<V> {
    pub request: Request<V>,
    pub points: usize,
    pub slots: usize,
}
