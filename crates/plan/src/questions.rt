// A plan's answers to the questions of a hierarchy: each is a few loads from its table.
ghost use Rattle.std.specs.Prelude.{◌≡◌, Some, None, MatchOption, false, true, if◌then◌else◌, nat_le, nat_lt};
ghost use Rattle.hierarchy.proofs.Certain.{lawful_from};
ghost use Rattle.plan.specs.Planning.{block_of};
ghost use Rattle.plan.specs.Plans.{means};
ghost use Rattle.plan.specs.Loaded.{listed};

use crate::block::Block;
use crate::loading::member;
use crate::plan::Plan;
use crate::span::Span;
use crate::view::View;
use hierarchy::{Hierarchy, Link};

impl Plan {
    // The block of a level, if there is such a level.
    fn block(&self, level: usize) -> Option<Block>
        ensures { result ≡ (if nat_le level self.now.levels then Some (block_of self.now.blocks level) else None) }
    {
        if level <= self.levels {
            Some(self.blocks[level])
        } else {
            None
        }
    }

    // What stands in the table of a level, if it is below the finest.
    fn view(&self, level: usize) -> Option<View<'_>>
        ensures { MatchOption result (nat_lt level self.now.levels ≡ false) (λ v. (nat_lt level self.now.levels ≡ true) × (v.table.now ≡ self.now.table.items) × (v.block ≡ block_of self.now.blocks level)) }
    {
        if level < self.levels {
            Some(View {
                table: &self.table,
                block: self.blocks[level],
            })
        } else {
            None
        }
    }

    // How many vertices the finest level has.
    pub fn finest(&self) -> usize
        ensures { result ≡ (means self.now).vertices self.now.levels }
    {
        self.blocks[self.levels].vertices as usize
    }
}

impl Hierarchy for Plan {
    type Listing = Span;

    ghost meaning = { means };

    ghost lawful = { λ p. lawful_from (means p) p.lawful };

    ghost listed = { λ p span. listed p.table.items span };

    fn levels(&self) -> usize {
        self.levels
    }

    fn vertices(&self, level: usize) -> usize {
        self.block(level).map_or(0, |b| b.vertices as usize)
    }

    fn edges(&self, level: usize) -> usize {
        self.block(level).map_or(0, |b| b.edges as usize)
    }

    fn faces(&self, level: usize) -> usize {
        self.block(level).map_or(0, |b| b.faces as usize)
    }

    fn places(&self) -> usize {
        self.finest()
    }

    fn list(&self, level: usize, link: Link, of: usize) -> Span {
        self.view(level)
            .map_or(Span::none(), |view| view.find_span(link, of))
    }

    fn list_length(&self, list: Span) -> usize {
        list.count
    }

    fn list_member(&self, list: Span, k: usize) -> usize {
        member(&self.table, list, k)
    }

    fn is_curve(&self, level: usize, edge: usize) -> bool {
        self.view(level).is_some_and(|view| view.is_curve(edge))
    }

    fn dimension(&self, level: usize, vertex: usize) -> u8 {
        self.view(level).map_or(0, |view| view.dimension(vertex)) as u8
    }
}
