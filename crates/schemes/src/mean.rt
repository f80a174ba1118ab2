// Exact means of what is read.
ghost use Rattle.std.specs.Prelude.{◌^◌, ◌<◌, ◌≤◌, unsigned_abs};

// A sum over the count of its numbers, which are at most 8 of 32 bits.
#[derive(Clone, Copy)]
pub(crate) struct Mean {
    pub(crate) sum: i64,
    pub(crate) count: u32,
    ghost small: { unsigned_abs sum ≤ 2 ^ 34 },
    ghost positive: { 0 < count },
    ghost few: { count ≤ 8 },
}

// The mean of some points, coordinate by coordinate.
#[derive(Clone, Copy)]
pub(crate) struct Centroid {
    pub(crate) x: Mean,
    pub(crate) y: Mean,
    pub(crate) z: Mean,
}
