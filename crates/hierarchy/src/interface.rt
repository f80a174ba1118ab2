// The interface: a hierarchy is fixed by its meaning, and every question has the answer that its meaning gives.
ghost use Rattle.std.specs.Prelude.{◌≡◌, ℕ, List, length, slice_index};
ghost use Rattle.hierarchy.specs.Meaning.{Meaning};
ghost use Rattle.hierarchy.specs.Lawful.{Lawful};

use crate::link::Link;

pub trait Hierarchy {
    // A list, found once and then asked for its members.
    type Listing: Copy;

    ghost meaning: { Self → Meaning };

    // What every implementation owes, and generic code may use.
    ghost lawful: { (h : Self) → Lawful (meaning h) };

    // The numbers of a list that was found.
    ghost listed: { Self → Self.Listing → List ℕ };

    // How many levels of subdivision there are; the finest level has this number.
    fn levels(&self) -> usize
        ensures { result ≡ (meaning self.now).levels };

    fn vertices(&self, level: usize) -> usize
        ensures { result ≡ (meaning self.now).vertices level };

    fn edges(&self, level: usize) -> usize
        ensures { result ≡ (meaning self.now).edges level };

    fn faces(&self, level: usize) -> usize
        ensures { result ≡ (meaning self.now).faces level };

    // How many places there are: as many as the finest level has vertices.
    fn places(&self) -> usize
        ensures { result ≡ (meaning self.now).vertices (meaning self.now).levels }
    {
        self.vertices(self.levels())
    }

    // What a relation lists of a number; nothing past the finest level or past a count.
    fn list(&self, level: usize, link: Link, of: usize) -> Self::Listing
        ensures { listed self.now result ≡ (meaning self.now).list level link of };

    // How many members a list has that was found.
    fn list_length(&self, list: Self::Listing) -> usize
        ensures { result ≡ length (listed self.now list) };

    // Member `k` of a list that was found; 0 past its end.
    fn list_member(&self, list: Self::Listing, k: usize) -> usize
        ensures { result ≡ slice_index (listed self.now list) k };

    // How many members the list has.
    fn degree(&self, level: usize, link: Link, of: usize) -> usize
        ensures { result ≡ length ((meaning self.now).list level link of) }
    {
        self.list_length(self.list(level, link, of))
    }

    // Member `k` of the list; 0 past its end.
    fn member(&self, level: usize, link: Link, of: usize, k: usize) -> usize
        ensures { result ≡ slice_index ((meaning self.now).list level link of) k }
    {
        self.list_member(self.list(level, link, of), k)
    }

    fn is_curve(&self, level: usize, edge: usize) -> bool
        ensures { result ≡ (meaning self.now).curve level edge };

    // A number and no enum: it is counted as one, and past the level's vertices it is 0.
    fn dimension(&self, level: usize, vertex: usize) -> u8
        ensures { result ≡ (meaning self.now).dimension level vertex };
}
