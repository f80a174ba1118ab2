// Finding a half edge among those of a vertex.
ghost use Rattle.std.specs.Prelude.{◌≡◌, ℕ, ◌^◌, ◌<◌};
ghost use Rattle.levels.specs.Level.{Level};
ghost use Rattle.levels.specs.Finer.{half_at};
ghost use Rattle.levels.specs.Sound.{Sound, Runs};
ghost use Rattle.plan.specs.Written.{Ended, HalvesListed, twin as twin_of};

use crate::block::Array;
use crate::view::View;

// The other half of the same edge.
fn twin(half: usize) -> usize
    requires { half < 2 ^ 40 }
    ensures { result ≡ twin_of half }
{
    if half % 2 == 0 { half + 1 } else { half - 1 }
}

impl View<'_> {
    // The half edge at vertex `from` of the edge that runs between it and vertex `to`: a vertex has few half edges.
    pub(crate) fn find_half(&self, from: usize, to: usize) -> usize
        ensures found { (m : Level) (e : ℕ) → Ended self.now.table.now self.now.block m → HalvesListed self.now.table.now self.now.block m → Sound m → from < m.vertices → e < m.edges → Runs m e from to → ((i : ℕ) → i < m.edges → Runs m i from to → i ≡ e) → result ≡ half_at m e from }
        ensures small { result < 2 ^ 32 }
    {
        let first = self.list_start(Array::VertexHalfEnds, from);
        let end = self.entry(Array::VertexHalfEnds, from);
        // a `find` over these places would give the place, and the half edge would be loaded again; 0 where there is none, of which nothing is asked
        for k in first..end {
            let half = self.entry(Array::VertexHalves, k);
            if self.end(twin(half)) == to {
                return half;
            }
        }
        0
    }
}
