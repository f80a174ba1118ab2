// Where a list stands in the table, and how many numbers it has.
ghost use Rattle.std.specs.Prelude.{◌≡◌, ◌^◌, ◌<◌};

#[derive(Clone, Copy)]
pub struct Span {
    pub(crate) from: usize,
    pub(crate) count: usize,
    ghost near: { from < 2 ^ 42 },
    ghost few: { count < 2 ^ 32 },
}

impl Span {
    ghost use Rattle.plan.specs.Loaded.{stands, nothing};

    // A list with no numbers.
    pub(crate) fn none() -> Span
        ensures { stands result ≡ nothing }
    {
        Span { from: 0, count: 0 }
    }
}
