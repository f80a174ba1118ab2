// Laying the blocks of all levels out, and filling the table with them.
ghost use Rattle.std.specs.Prelude.{◌≡◌, ℕ, ◌≤◌, length};
ghost use Rattle.base.specs.Bases.{shape};
ghost use Rattle.levels.specs.Incidence.{hierarchy};
ghost use Rattle.levels.specs.Surfaces.{surface};
ghost use Rattle.plan.specs.Planning.{tells, needs, block_of, first_block, block_at};
ghost use Rattle.plan.specs.Sorting.{Keeps};

use crate::block::Block;
use crate::coarsest::{first_block, write_coarsest};
use crate::lists::list;
use crate::refining::refine;
use crate::settling::settle;
use base::Base;

// Where each level stands. Each block is made from the one before it in the same array, so no iterator can run over the array.
pub(crate) fn lay_out(base: &Base, levels: usize) -> [Block; 6]
    requires { levels ≤ 5 }
    ensures { (j : ℕ) → j ≤ levels → block_of result j ≡ block_at (first_block (shape base.now)) j }
{
    let mut blocks = [first_block(base); 6];
    for j in 0..levels {
        blocks[j + 1] = blocks[j].next();
    }
    blocks
}

// Writes the levels below the finest, each from the one before, which is then settled.
pub(crate) fn fill_levels(table: &mut [u32], base: &Base, blocks: [Block; 6], levels: usize)
    requires some { 1 ≤ levels }
    requires few { levels ≤ 5 }
    requires laid { (j : ℕ) → j ≤ levels → block_of blocks j ≡ block_at (first_block (shape base.now)) j }
    requires within { needs (surface (shape base.now)) levels ≤ length table.old }
    ensures told { tells table.new levels blocks ≡ hierarchy (surface (shape base.now)) levels }
    ensures kept { Keeps table.old table.new 0 (needs (surface (shape base.now)) levels) }
{
    write_coarsest(table, blocks[0], base);
    list(table, blocks[0]);
    for block in &blocks[..levels - 1] {
        let finer = refine(table, *block);
        settle(table, *block);
        list(table, finer);
    }
    settle(table, blocks[levels - 1]);
}
