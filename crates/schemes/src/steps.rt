// The steps that are made on a level, and the classes of the points that they change.

// Steps 1 and 3 are s-lifts, step 2 is a w-lift. An analysis makes them in this order.
#[derive(Clone, Copy, PartialEq, Eq, Debug)]
pub enum Step {
    First,
    Second,
    Third,
}

// A level has a point for each of its vertices, its edges and its faces.
#[derive(Clone, Copy, PartialEq, Eq, Debug)]
pub enum Class {
    Vertex,
    Edge,
    Face,
}
