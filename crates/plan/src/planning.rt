// Planning a base: judging how many levels it takes and what table they need, and filling the table.
ghost use Rattle.std.specs.Prelude.{◌≡◌, ◌+◌, ◌≤◌, IfOk, Ok, Err, vec_len, MatchResult, OnErr, OnOk, nat_lt, position};
ghost use Rattle.mesh.specs.Reading.{reading};
ghost use Rattle.mesh.specs.Shape.{starting};
ghost use Rattle.base.specs.Bases.{shape};
ghost use Rattle.base.specs.Drafts.{Failed};
ghost use Rattle.levels.specs.Incidence.{hierarchy};
ghost use Rattle.levels.specs.Refined.{Refined};
ghost use Rattle.levels.specs.Surfaces.{surface};
ghost use Rattle.plan.specs.Planning.{need, planned, planned_bytes};
ghost use Rattle.plan.specs.Plans.{means, Planned, PlannedBytes};
ghost use Rattle.plan.specs.Surveys.{Surveyed};
ghost use Rattle.plan.specs.declared.block.Block.{Block};

use crate::block::Block;
use crate::building::{fill_levels, lay_out};
use crate::plan::Plan;
use base::Base;
use hierarchy::has_levels;
use refusal::{Fault, Refusal};
use std::alloc::{AllocError, Global};
use std::mem;

// The first block with too many vertices.
fn too_fine(blocks: &[Block]) -> Option<usize>
    ensures { result ≡ position (λ (b : Block). nat_lt 65536 b.vertices) blocks.now }
{
    blocks.iter().position(|b| b.vertices > 65_536)
}

// Where the levels of a base stand, if there are neither too many levels nor too many vertices.
fn survey(base: &Base, levels: usize) -> Result<[Block; 6], Refusal>
    ensures { MatchResult result (λ blocks. Surveyed (shape base.now) levels blocks) (λ e. need (surface (shape base.now)) levels ≡ Err e) }
{
    if !has_levels(levels) {
        return Err(Refusal::LevelCount(levels));
    }
    let blocks = lay_out(base, levels);
    match too_fine(&blocks[..levels + 1]) {
        Some(level) => Err(Refusal::TooFine(level)),
        None => Ok(blocks),
    }
}

// How many numbers the table of a plan of so many levels needs. That no refined vertex has more than 8 edges is not asked: it never has.
pub fn needed(base: &Base, levels: usize) -> Result<usize, Refusal>
    ensures value { result ≡ need (surface (shape base.now)) levels }
    ensures refined { Refined (surface (shape base.now)) }
{
    let blocks = survey(base, levels)?;
    Ok(blocks[levels].at as usize)
}

impl Plan {
    // The starting plan: that of the starting base, with one level of subdivision.
    pub fn start(heap: Global) -> Result<Plan, AllocError>
        ensures { IfOk result (λ p. means p ≡ hierarchy (surface starting) 1) }
    {
        let base = Base::start(heap)?;
        let blocks = lay_out(&base, 1);
        let mut table = vec![in heap; 0; blocks[1].at as usize]?;
        fill_levels(&mut table, &base, blocks, 1);
        Ok(Plan {
            table,
            levels: 1,
            blocks,
        })
    }

    // Plans a base in the place of what was planned. The plan takes the table over and hands back its former one; a refusal changes neither.
    pub fn plan_base(
        &mut self,
        base: &Base,
        levels: usize,
        table: &mut Vec<u32>,
    ) -> Result<usize, Refusal>
        ensures answer { result ≡ planned (surface (shape base.now)) levels (vec_len table.old) }
        ensures done { OnOk result (Planned (surface (shape base.now)) levels table.old.items self.new) }
        ensures former { OnOk result (table.new ≡ self.old.table) }
        ensures stays { OnErr result ((self.new ≡ self.old) × (table.new ≡ table.old)) }
    {
        let blocks = survey(base, levels)?;
        let need = blocks[levels].at as usize;
        if table.len() < need {
            return Err(Refusal::TableTooShort(need));
        }
        fill_levels(table, base, blocks, levels);
        mem::swap(&mut self.table, table);
        self.levels = levels;
        self.blocks = blocks;
        Ok(blocks[levels].vertices as usize)
    }

    // The same from the bytes of a base. What the reader refuses comes first, and passes through unchanged.
    pub fn plan_bytes(
        &mut self,
        heap: Global,
        bytes: &[u8],
        levels: usize,
        table: &mut Vec<u32>,
    ) -> Result<usize, Fault>
        ensures answer { MatchResult result (λ n. planned_bytes bytes.now levels (vec_len table.old) ≡ Ok n) (λ f. Failed f (planned_bytes bytes.now levels (vec_len table.old))) }
        ensures done { OnOk result (PlannedBytes (reading bytes.now) levels table.old.items self.new) }
        ensures former { OnOk result (table.new ≡ self.old.table) }
        ensures stays { OnErr result ((self.new ≡ self.old) × (table.new ≡ table.old)) }
    {
        let mut base = Base::start(heap)?;
        let _counts = base.read(heap, bytes)?;
        Ok(self.plan_base(&base, levels, table)?)
    }
}
