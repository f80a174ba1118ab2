// Points, a value kind.
ghost use Rattle.std.specs.Prelude.{◌≡◌, ◌^◌, ◌<◌, ◌+ℤ◌, neg_ℤ};
ghost use Rattle.std.specs.Int.Signed.{mag};
ghost use Rattle.kinds.specs.Residues.{residue as residue_of};

use crate::kind::ValueKind;

// A position, or a move of one: three numbers in units of 1/256 mm.
#[repr(C)]
#[derive(Clone, Copy, PartialEq, Eq, Debug)]
pub struct Point {
    pub x: i32,
    pub y: i32,
    pub z: i32,
    // each lies from −2^31 to 2^31 − 1; without this the laws would speak of coordinates that no point can have, and fail there
    ghost fits: { (mag x < 2 ^ 31) × (mag y < 2 ^ 31) × (mag z < 2 ^ 31) },
}

impl Point {
    ghost use Rattle.kinds.specs.PointSums.{Modulo, modulo};

    // The point with these coordinates.
    pub fn new(x: i32, y: i32, z: i32) -> Point
        ensures { (result.x ≡ x) × (result.y ≡ y) × (result.z ≡ z) }
    {
        Point { x, y, z }
    }

    // The point with these coordinates modulo 2^32.
    pub fn modulo(x: i64, y: i64, z: i64) -> Point
        ensures value { result ≡ modulo x y z }
        ensures modulo { Modulo x y z result }
    {
        Point {
            x: residue(x),
            y: residue(y),
            z: residue(z),
        }
    }
}

impl ValueKind for Point {
    ghost use Rattle.kinds.specs.PointSums.{added, origin, opposed, point_laws, Modulo};

    ghost plus = { added };

    ghost zero = { origin };

    ghost opposite = { opposed };

    ghost laws = { point_laws };

    fn plus(self, other: Point) -> Point
        ensures value { result ≡ added self other }
        ensures modulo { Modulo (self.x +ℤ other.x) (self.y +ℤ other.y) (self.z +ℤ other.z) result }
    {
        Point {
            x: self.x.wrapping_add(other.x),
            y: self.y.wrapping_add(other.y),
            z: self.z.wrapping_add(other.z),
        }
    }

    fn zero() -> Point {
        Point { x: 0, y: 0, z: 0 }
    }

    fn opposite(self) -> Point
        ensures value { result ≡ opposed self }
        ensures modulo { Modulo (neg_ℤ self.x) (neg_ℤ self.y) (neg_ℤ self.z) result }
    {
        // −2^31 has no opposite among these numbers and is its own
        Point {
            x: self.x.wrapping_neg(),
            y: self.y.wrapping_neg(),
            z: self.z.wrapping_neg(),
        }
    }
}

// The low 32 bits, read with their sign.
fn residue(z: i64) -> i32
    ensures { result ≡ residue_of z }
{
    ((z.cast_unsigned() & 0xffff_ffff) as u32).cast_signed()
}
