// Writing numbers one after the other.
ghost use Rattle.std.specs.Prelude.{ℕ, ◌+◌, ◌^◌, ◌<◌, ◌≤◌, length, slice_index};
ghost use Rattle.plan.specs.Sorting.{Keeps};
ghost use Rattle.plan.specs.Giving.{Gives};

use crate::scatter::store;

// Writes so many numbers from a place on, each worked out from the table as it then stands and from how many came before.
// The table is read between the writes, so no iterator can run over the places that are written.
pub(crate) fn write<F: Fn(&[u32], usize) -> usize>(
    table: &mut [u32],
    at: usize,
    count: usize,
    number: F,
)
    requires within { at + count ≤ length table.old }
    requires callable { (u : _) (i : ℕ) → i < count → F.pre number u i }
    requires small { (i r : ℕ) → i < count → Gives F.Fn number table.old at i r → r < 2 ^ 32 }
    ensures written { (i : ℕ) → i < count → Gives F.Fn number table.old at i (slice_index table.new (at + i)) }
    ensures kept { Keeps table.old table.new at (at + count) }
{
    for i in 0..count {
        let value = number(table, i);
        store(table, at + i, value);
    }
}
