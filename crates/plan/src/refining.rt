// Refinement: the arrays of the next finer level, each by arithmetic on those of this one.
ghost use Rattle.std.specs.Prelude.{◌≡◌, ◌+◌, ◌*◌, ◌^◌, ◌≤◌, length};
ghost use Rattle.plan.specs.Sorting.{Keeps};
ghost use Rattle.levels.specs.Finer.{finer};
ghost use Rattle.levels.specs.Level.{Level};
ghost use Rattle.plan.specs.Written.{Shows, Standing, next};

use crate::block::{Array, Block};
use crate::view::View;
use crate::write::write;

// Writes what stands for the next finer level.
pub(crate) fn refine(table: &mut [u32], b: Block) -> Block
    requires small { b.at + 80 * b.corners ≤ 2 ^ 30 }
    requires within { b.at + 80 * b.corners ≤ length table.old }
    requires standing { (m : Level) × Standing table.old b m }
    ensures value { result ≡ next b }
    ensures shown { (m : Level) → Standing table.old b m → Shows table.new result (finer m) }
    ensures kept { Keeps table.old table.new (b.at + 16 * b.corners) (b.at + 80 * b.corners) }
{
    let to = b.next();
    write(
        table,
        to.start(Array::Ends),
        2 * to.edges as usize,
        |table, half| View { table, block: b }.fine_end(half),
    );
    write(
        table,
        to.start(Array::Halves),
        to.corners as usize,
        |table, corner| View { table, block: b }.fine_half(corner),
    );
    write(
        table,
        to.start(Array::Faces),
        to.corners as usize,
        |_, corner| corner / 4,
    );
    write(
        table,
        to.start(Array::Curves),
        to.edges as usize,
        |table, edge| View { table, block: b }.fine_curve(edge) as usize,
    );
    write(
        table,
        to.start(Array::Dimensions),
        to.vertices as usize,
        |table, vertex| View { table, block: b }.fine_dimension(vertex),
    );
    to
}
