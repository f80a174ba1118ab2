// The type of a plan. Its ghost fields are what every plan keeps.
ghost use Rattle.std.specs.Prelude.{◌≤◌};
ghost use Rattle.hierarchy.specs.Lawful.{Lawful};
ghost use Rattle.plan.specs.Planning.{tells};

use crate::block::Block;

#[derive(Drop)]
pub struct Plan {
    // the blocks of the levels below the finest, one behind the other: arrays in one table, since its memory is handed in
    pub(crate) table: Vec<u32>,
    pub(crate) levels: usize,
    // where each level stands, and its counts; of the finest, the counts alone. As many as there can be, since planning cannot fail for want of memory
    pub(crate) blocks: [Block; 6],
    ghost shallow: { levels ≤ 5 },
    ghost lawful: { ∥ Lawful (tells table.items levels blocks) ∥₁ },
}
