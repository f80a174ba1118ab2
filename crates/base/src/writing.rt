// A base written as its records.
ghost use Rattle.std.specs.Prelude.{◌≡◌, ◌++◌, map, IfOk, Ok, OnOk};
ghost use Rattle.std.specs.List.{flat_map};
ghost use Rattle.mesh.specs.Reading.{reading};
ghost use Rattle.mesh.specs.Records.{bytes_of, vertex, face, curve, two_bytes, written};
ghost use Rattle.base.specs.Bases.{shape};

use crate::base::Base;
use mesh::Side;
use std::alloc::{AllocError, Global};

// Two bytes, the low one first.
fn write_number(out: &mut Vec<u8>, number: u16) -> Result<(), AllocError>
    ensures { OnOk result (out.new.items ≡ out.old.items ++ two_bytes number) }
{
    out.extend_from_slice(&number.to_le_bytes())
}

fn write_vertices(out: &mut Vec<u8>, dims: &[u8]) -> Result<(), AllocError>
    ensures { OnOk result (out.new.items ≡ out.old.items ++ flat_map (λ d. bytes_of (vertex d)) dims.now) }
{
    for dimension in dims {
        out.push(1)?;
        out.push(*dimension)?;
    }
    Ok(())
}

fn write_corners(out: &mut Vec<u8>, sides: &[Side]) -> Result<(), AllocError>
    ensures { OnOk result (out.new.items ≡ out.old.items ++ flat_map two_bytes (map (λ s. s.tail) sides.now)) }
{
    for side in sides {
        write_number(out, side.tail)?;
    }
    Ok(())
}

fn write_curves(out: &mut Vec<u8>, edges: &[Side]) -> Result<(), AllocError>
    ensures { OnOk result (out.new.items ≡ out.old.items ++ flat_map (λ s. bytes_of (curve s)) edges.now) }
{
    for edge in edges {
        out.push(2)?;
        write_number(out, edge.tail)?;
        write_number(out, edge.head)?;
    }
    Ok(())
}

impl Base {
    fn write_faces(&self, out: &mut Vec<u8>) -> Result<(), AllocError>
        ensures { OnOk result (out.new.items ≡ out.old.items ++ flat_map (λ f. bytes_of (face f)) (shape self.now).faces) }
    {
        let mut rest = self.mesh.sides.as_slice();
        for size in &self.mesh.sizes {
            let (around, after) = rest.split_at(*size);
            out.push(*size as u8)?;
            write_corners(out, around)?;
            rest = after;
        }
        Ok(())
    }

    // The records of this base: vertices, faces, curve edges in their order and direction, end.
    pub fn write(&self, heap: Global) -> Result<Vec<u8>, AllocError>
        ensures bytes { IfOk result (λ v. v.items ≡ written (shape self.now)) }
        ensures back { IfOk result (λ v. reading v.items ≡ Ok (shape self.now)) }
    {
        let mut out = Vec::new(heap);
        let curves = self.mesh.marked_edges(heap, &self.curves)?;
        write_vertices(&mut out, &self.mesh.dims)?;
        self.write_faces(&mut out)?;
        write_curves(&mut out, &curves)?;
        out.push(0)?;
        Ok(out)
    }
}
