// Marks of a place, added by exclusive or.
ghost use Rattle.std.specs.Prelude.{◌≡◌, ℕ};
ghost use Rattle.kinds.specs.MarkSums.{differing, unmarked, marks_laws, flag, exactly_one};

use crate::kind::ValueKind;

#[repr(C)]
#[derive(Clone, Copy, PartialEq, Eq, Debug)]
pub struct Marks {
    // 32 of them: flag k is set where 2^k has its part in the number
    pub flags: u32,
}

impl ValueKind for Marks {
    ghost plus = { differing };

    ghost zero = { unmarked };

    ghost opposite = { λ m. m };

    ghost laws = { marks_laws };

    fn plus(self, other: Marks) -> Marks
        ensures value { result ≡ differing self other }
        ensures flags { (k : ℕ) → flag result k ≡ exactly_one (flag self k) (flag other k) }
    {
        Marks {
            flags: self.flags ^ other.flags,
        }
    }

    fn zero() -> Marks {
        Marks { flags: 0 }
    }

    fn opposite(self) -> Marks {
        self
    }
}
