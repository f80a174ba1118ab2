// Whether a hierarchy is uniform: a definition over its meaning, asked by questions.
ghost use Rattle.std.specs.Prelude.{◌≡◌};
ghost use Rattle.hierarchy.specs.Uniform.{uniform, smooth_edges, all_of_dimension, uniform_level};

use crate::interface::Hierarchy;

// Whether no edge of the level is a curve.
fn no_curves<H: Hierarchy>(h: &H, level: usize) -> bool
    ensures { result ≡ smooth_edges (H.meaning h.now) level }
{
    (0..h.edges(level)).all(|edge| !h.is_curve(level, edge))
}

// Whether all vertices of the level have this dimension.
fn all_have<H: Hierarchy>(h: &H, level: usize, dimension: u8) -> bool
    ensures { result ≡ all_of_dimension (H.meaning h.now) level dimension }
{
    (0..h.vertices(level)).all(|vertex| h.dimension(level, vertex) == dimension)
}

fn is_uniform_level<H: Hierarchy>(h: &H, level: usize) -> bool
    ensures { result ≡ uniform_level (H.meaning h.now) level }
{
    (no_curves(h, level) && all_have(h, level, 2)) || (h.faces(level) == 0 && all_have(h, level, 1))
}

pub fn is_uniform<H: Hierarchy>(h: &H) -> bool
    ensures { result ≡ uniform (H.meaning h.now) }
{
    (0..h.levels()).all(|level| is_uniform_level(h, level))
}
