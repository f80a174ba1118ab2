// The type of a base. Its ghost field is what every base keeps.
ghost use Rattle.mesh.specs.Rules.{Rules};
ghost use Rattle.base.specs.Meshes.{with_marks};

use crate::meshes::Mesh;

// Marks and sides of the edges stand apart: each is lent as a slice, by a call that cannot fail.
#[derive(Drop)]
pub struct Base {
    pub(crate) mesh: Mesh,
    // of each edge, whether it is a curve
    pub(crate) curves: Vec<bool>,
    ghost rules: { ∥ Rules (with_marks mesh curves.items) ∥₁ },
}
