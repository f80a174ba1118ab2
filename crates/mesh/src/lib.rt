// A side of a face, or an edge: two vertices, in the direction in which it runs.
#![tactic(auto)]

ghost use Rattle.std.specs.Prelude.{◌≡◌};
ghost use Rattle.mesh.specs.Shape.{side, joins, touches};

#[derive(Clone, Copy, Debug, PartialEq, Eq)]
pub struct Side {
    pub tail: u16,
    pub head: u16,
}

impl Side {
    // The same two vertices in the other direction.
    pub fn reversed(self) -> Side
        ensures { result ≡ side self.head self.tail }
    {
        Side {
            tail: self.head,
            head: self.tail,
        }
    }

    // Whether the two run between the same two vertices.
    pub fn joins(self, other: Side) -> bool
        ensures { result ≡ joins self other }
    {
        self == other || self == other.reversed()
    }

    pub fn ends_at(self, vertex: usize) -> bool
        ensures { result ≡ touches vertex self }
    {
        usize::from(self.tail) == vertex || usize::from(self.head) == vertex
    }
}
