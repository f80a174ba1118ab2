// The members of a list, one by one. A proof sees those that are still to come.
ghost use Rattle.std.specs.Prelude.{◌≡◌, ℕ, List, drop};
ghost use Rattle.std.specs.Iterator.{YieldsFirst, item_count};

use crate::interface::Hierarchy;
use crate::link::Link;
use std::marker::Model;

#[derive(Drop)]
pub struct Members<'h, H: Hierarchy> {
    h: &'h H,
    list: H::Listing,
    next: usize,
}

impl<'h, H: Hierarchy> Model for Members<'h, H> {
    ghost Value = { List ℕ };

    ghost view = { λ s. drop s.next (H.listed s.h.now s.list) };
}

impl<'h, H: Hierarchy> Iterator for Members<'h, H> {
    type Item = usize;

    ghost next_gives = { YieldsFirst (λ s. s) };

    ghost remaining = { item_count (λ s. s) };

    fn next(&mut self) -> Option<usize> {
        if self.next >= self.h.list_length(self.list) {
            return None;
        }
        let member = self.h.list_member(self.list, self.next);
        self.next += 1;
        Some(member)
    }
}

// What a relation lists of a number, member by member.
pub fn members_of<H: Hierarchy>(h: &H, level: usize, link: Link, of: usize) -> Members<'_, H>
    ensures { result ≡ (H.meaning h.now).list level link of }
{
    Members {
        h,
        list: h.list(level, link, of),
        next: 0,
    }
}
