// The block of the coarsest level, written from the tables of a base.
ghost use Rattle.std.specs.Prelude.{◌≡◌, ℕ, ◌+◌, ◌*◌, ◌<◌, ◌≤◌, length, slice_index};
ghost use Rattle.base.specs.Bases.{shape};
ghost use Rattle.levels.specs.Surfaces.{surface};
ghost use Rattle.plan.specs.declared.block.Array.TheVariants.{Ends, Halves, Faces, Curves, Dimensions};
ghost use Rattle.plan.specs.Decoded.{end_at, corner_half, mark};
ghost use Rattle.plan.specs.Layout.{begins};
ghost use Rattle.plan.specs.Planning.{first_block};
ghost use Rattle.plan.specs.Sorting.{Keeps};
ghost use Rattle.plan.specs.Written.{Ended, HalvesListed, Shows};

use crate::block::{Array, Block};
use crate::lists::list_halves;
use crate::scatter::{fill, store};
use crate::view::View;
use crate::write::write;
use base::Base;

pub(crate) fn first_block(base: &Base) -> Block
    ensures { result ≡ first_block (shape base.now) }
{
    Block {
        at: 0,
        vertices: base.dimensions().len() as u32,
        edges: base.edge_sides().len() as u32,
        faces: base.face_sizes().len() as u32,
        corners: base.face_sides().len() as u32,
    }
}

// The block follows from the base, and is handed on and not worked out again: six functions read it, and `first_block (shape base.now)` in
// the place of `b` would make each of their clauses longer.
fn write_ends(table: &mut [u32], b: Block, base: &Base)
    requires block { b ≡ first_block (shape base.now) }
    requires within { 16 * b.corners ≤ length table.old }
    ensures written { (h : ℕ) → h < 2 * b.edges → slice_index table.new (begins b Ends + h) ≡ end_at (surface (shape base.now)) h }
    ensures kept { Keeps table.old table.new (begins b Ends) (begins b Ends + 2 * b.edges) }
{
    let at = b.start(Array::Ends);
    for (e, edge) in base.edge_sides().iter().enumerate() {
        store(table, at + 2 * e, edge.tail as usize);
        store(table, at + 2 * e + 1, edge.head as usize);
    }
}

// A corner's half edge is found among those of its vertex.
fn write_halves(table: &mut [u32], b: Block, base: &Base)
    requires block { b ≡ first_block (shape base.now) }
    requires within { 16 * b.corners ≤ length table.old }
    requires ended { Ended table.old b (surface (shape base.now)) }
    requires listed { HalvesListed table.old b (surface (shape base.now)) }
    ensures written { (c : ℕ) → c < b.corners → slice_index table.new (begins b Halves + c) ≡ corner_half (surface (shape base.now)) c }
    ensures kept { Keeps table.old table.new (begins b Halves) (begins b Halves + b.corners) }
{
    let at = b.start(Array::Halves);
    for (c, side) in base.face_sides().iter().enumerate() {
        let view = View { table, block: b };
        let half = view.find_half(side.tail as usize, side.head as usize);
        store(table, at + c, half);
    }
}

// The corners of a face follow one another, so a running total says where those of the next one begin.
fn write_faces(table: &mut [u32], b: Block, base: &Base)
    requires block { b ≡ first_block (shape base.now) }
    requires within { 16 * b.corners ≤ length table.old }
    ensures written { (c : ℕ) → c < b.corners → slice_index table.new (begins b Faces + c) ≡ (surface (shape base.now)).face c }
    ensures kept { Keeps table.old table.new (begins b Faces) (begins b Faces + b.corners) }
{
    let mut at = b.start(Array::Faces);
    for (face, size) in base.face_sizes().iter().enumerate() {
        fill(table, at, *size, face as u32);
        at += *size;
    }
}

fn write_curves(table: &mut [u32], b: Block, base: &Base)
    requires block { b ≡ first_block (shape base.now) }
    requires within { 16 * b.corners ≤ length table.old }
    ensures written { (e : ℕ) → e < b.edges → slice_index table.new (begins b Curves + e) ≡ mark (surface (shape base.now)) e }
    ensures kept { Keeps table.old table.new (begins b Curves) (begins b Curves + b.edges) }
{
    let marks = base.curve_marks();
    write(
        table,
        b.start(Array::Curves),
        marks.len(),
        |_, edge| marks[edge] as usize,
    );
}

// Not one function with `write_curves`: what the two write is said by two definitions, and the loop is already in `write`.
fn write_dimensions(table: &mut [u32], b: Block, base: &Base)
    requires block { b ≡ first_block (shape base.now) }
    requires within { 16 * b.corners ≤ length table.old }
    ensures written { (v : ℕ) → v < b.vertices → slice_index table.new (begins b Dimensions + v) ≡ (surface (shape base.now)).dimension v }
    ensures kept { Keeps table.old table.new (begins b Dimensions) (begins b Dimensions + b.vertices) }
{
    let dimensions = base.dimensions();
    write(
        table,
        b.start(Array::Dimensions),
        dimensions.len(),
        |_, vertex| dimensions[vertex] as usize,
    );
}

// Writes what stands for the coarsest level.
pub(crate) fn write_coarsest(table: &mut [u32], b: Block, base: &Base)
    requires block { b ≡ first_block (shape base.now) }
    requires within { 16 * b.corners ≤ length table.old }
    ensures shown { Shows table.new b (surface (shape base.now)) }
    ensures kept { Keeps table.old table.new 0 (16 * b.corners) }
{
    write_ends(table, b, base);
    list_halves(table, b);
    write_halves(table, b, base);
    write_faces(table, b, base);
    write_curves(table, b, base);
    write_dimensions(table, b, base);
}
