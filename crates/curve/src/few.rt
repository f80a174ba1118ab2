// At most two numbers, ascending: what any relation lists along a curve.
// An enum of its own: an Option of a pair has no place for one number alone, and an array with a count holds numbers past that count.
ghost use Rattle.std.specs.Prelude.{◌≡◌, length, slice_index};
ghost use Rattle.curve.specs.Listed.{listed};

#[derive(Clone, Copy, Debug)]
pub enum Few {
    Nothing,
    One(usize),
    Two(usize, usize),
}

impl Few {
    pub(crate) fn count(self) -> usize
        ensures { result ≡ length (listed self) }
    {
        match self {
            Few::Nothing => 0,
            Few::One(_) => 1,
            Few::Two(_, _) => 2,
        }
    }

    // Number `k`; 0 past the last.
    pub(crate) fn get(self, k: usize) -> usize
        ensures { result ≡ slice_index (listed self) k }
    {
        match (self, k) {
            (Few::One(first) | Few::Two(first, _), 0) => first,
            (Few::Two(_, second), 1) => second,
            _ => 0,
        }
    }
}
