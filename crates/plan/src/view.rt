// A block with the table that it is read from.
ghost use Rattle.std.specs.Prelude.{◌≡◌, ◌^◌, ◌<◌};
ghost use Rattle.plan.specs.Decoded.{start_of};
ghost use Rattle.plan.specs.Layout.{reads};

use crate::block::{Array, Block};
use crate::scatter::load;

#[derive(Clone, Copy)]
pub(crate) struct View<'t> {
    pub table: &'t [u32],
    pub block: Block,
}

impl View<'_> {
    // A number of an array; 0 past its end.
    pub(crate) fn entry(&self, array: Array, i: usize) -> usize
        ensures value { result ≡ reads self.now.table.now self.now.block array i }
        ensures small { result < 2 ^ 32 }
    {
        if i < self.block.room(array) {
            load(self.table, self.block.start(array) + i)
        } else {
            0
        }
    }

    // Where list `k` begins: where the one before it ends.
    pub(crate) fn list_start(&self, ends: Array, k: usize) -> usize
        ensures value { result ≡ start_of (reads self.now.table.now self.now.block ends) k }
        ensures small { result < 2 ^ 32 }
    {
        if k == 0 { 0 } else { self.entry(ends, k - 1) }
    }
}
